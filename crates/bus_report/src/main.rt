#![tactic(auto)]
// The bus report of a script: the draw program's script on standard input, and on standard output the report of its screen.
ghost use Rattle.std.specs.Prelude.{OnOk};
ghost use Rattle.script_input.specs.Reader.{Prints};
ghost use Rattle.bus_text.specs.FrameReport.{output};

use std::io;
use std::io::{Read, Write};

fn main(rt: HostRuntime) -> io::Result<()> {
    report(&mut rt.stdin(), &mut rt.stdout())
}

// A script's bytes, and the text of them. A script has 25 registers, 10h the burst register, and 16,384 words of memory.
fn report<R: Read, W: Write>(input: &mut R, to: &mut W) -> io::Result<()>
    ensures { OnOk result (Prints output (R.remaining input.old) (R.remaining input.new) (W.contents to.old) (W.contents to.new)) }
{
    let mut registers = [0u16; 25];
    let mut mem = [0u16; 16384];
    let script = script_input::read_image(input, &mut registers, &mut mem);
    let text = bus_text::begin(script, registers[0x10], &mem);
    script_input::print(to, text, &mem)
}
