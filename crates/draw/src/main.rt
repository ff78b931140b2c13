#![tactic(auto)]
// The draw program: a script on standard input, and on standard output its text.
ghost use Rattle.std.specs.Prelude.{OnOk};
ghost use Rattle.script_input.specs.Reader.{Prints};
ghost use Rattle.text.specs.Text.{output};

use std::io;
use std::io::{Read, Write};

fn main(rt: HostRuntime) -> io::Result<()> {
    draw(&mut rt.stdin(), &mut rt.stdout())
}

// A script's bytes, and the text of them. Memory is 16,384 words.
fn draw<R: Read, W: Write>(input: &mut R, to: &mut W) -> io::Result<()>
    ensures { OnOk result (Prints output (R.remaining input.old) (R.remaining input.new) (W.contents to.old) (W.contents to.new)) }
{
    let mut mem = [0u16; 16384];
    let script = script_input::read_script(input, &mut mem);
    let text = text::begin(script, &mem);
    script_input::print(to, text, &mem)
}
