#![tactic(auto)]
// A script read from standard input, or from another reader.
ghost use Rattle.std.specs.Prelude.{◌<◌, ◌≡◌, ℕ, slice_index, OnOk};
ghost use Rattle.std.specs.Io.KnownBytes.{Appends};
ghost use Rattle.script.specs.Feeding.{beginning};
ghost use Rattle.image.specs.Feeding.{fed, feeding};
ghost use Rattle.script_input.specs.Input.{Input, Drawing};
ghost use Rattle.script_input.specs.Reader.{Taken, Drawn};

use lines::Pieces;
use script::{Script, Step};
use std::io;
use std::io::{Read, Write};

// A script, for its settings and memory alone.
pub fn read_script<R: Read>(input: &mut R, mem: &mut [u16; 16384]) -> Step
    ensures drawing { Drawing beginning mem.old result mem.new }
    ensures drawn { Drawn (R.remaining input.old) (R.remaining input.new) beginning mem.old result mem.new }
{
    let mut registers = [0u16; 25];
    read_image(input, &mut registers, mem)
}

// A proved loop has to end, and nothing says that the input does. So the loop has 2^40 turns at most, more than any run makes.
pub fn read_image<R: Read>(input: &mut R, registers: &mut [u16; 25], mem: &mut [u16; 16384]) -> Step
    ensures input { Input beginning registers.old mem.old result registers.new mem.new }
    ensures taken { Taken (R.remaining input.old) (R.remaining input.new) beginning registers.old mem.old result registers.new mem.new }
{
    let mut script = script::begin();
    for _ in 0..1u64 << 40 {
        match read_some(input, script, registers, mem) {
            Step::More(s) => script = s,
            ended => return ended,
        }
    }
    Step::More(script)
}

// Some bytes of the script, or the end of the input; a read that fails counts as the end.
fn read_some<R: Read>(
    input: &mut R,
    s: Script,
    registers: &mut [u16; 25],
    mem: &mut [u16; 16384],
) -> Step
    ensures input { Input s registers.old mem.old result registers.new mem.new }
    ensures taken { Taken (R.remaining input.old) (R.remaining input.new) s registers.old mem.old result registers.new mem.new }
{
    let mut buffer = [0u8; 4096];
    let n = input.read(&mut buffer).unwrap_or(0);
    if n == 0 {
        return Step::Refused(script::at_end(s));
    }
    feed(s, &buffer[..n], registers, mem)
}

// Bytes that were read.
fn feed(s: Script, bytes: &[u8], registers: &mut [u16; 25], mem: &mut [u16; 16384]) -> Step
    ensures fed { fed result registers.new mem.new ≡ feeding bytes.now s registers.old mem.old }
    ensures small { (i : ℕ) → slice_index bytes.now i < 256 }
{
    image::feed(s, bytes, registers, mem)
}

// A text, as its pieces come; a write that fails ends it.
pub fn print<P: Pieces, W: Write>(to: &mut W, begun: P, of: &P::Of) -> io::Result<()>
    ensures { OnOk result (Appends (W.contents to.old) (W.contents to.new) (P.to_come of.now begun)) }
{
    let mut text = begun;
    let mut out = [0u8; 2048];
    while let Some(piece) = text.next(of, &mut out) {
        to.write_all(&out[..piece.count])?;
        text = piece.after;
    }
    Ok(())
}
