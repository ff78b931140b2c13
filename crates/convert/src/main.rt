#![tactic(auto)]
// The converting program: a draw program's script on standard input, and on standard output the same screen as a linear script, or the line of
// a refusal.
ghost use Rattle.std.specs.Prelude.{OnOk};
ghost use Rattle.script_input.specs.Reader.{Prints};
ghost use Rattle.convert_text.specs.ConvertText.{output};

use convert_text::Contents;
use std::io;
use std::io::{Read, Write};

fn main(rt: HostRuntime) -> io::Result<()> {
    convert(&mut rt.stdin(), &mut rt.stdout())
}

// A script's bytes, and the text of them. A script has 25 registers and 16,384 words of memory.
fn convert<R: Read, W: Write>(input: &mut R, to: &mut W) -> io::Result<()>
    ensures { OnOk result (Prints output (R.remaining input.old) (R.remaining input.new) (W.contents to.old) (W.contents to.new)) }
{
    let mut of = Contents {
        registers: [0; 25],
        mem: [0; 16384],
    };
    let script = script_input::read_image(input, &mut of.registers, &mut of.mem);
    let text = convert_text::begin(script, &mut of.registers, &mut of.mem);
    script_input::print(to, text, &of)
}
