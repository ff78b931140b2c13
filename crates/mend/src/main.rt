#![tactic(auto)]
// The mending program: a draw program's script on standard input, and on standard output a line for each pointer that was changed, then the
// text of the mended list.
ghost use Rattle.std.specs.Prelude.{IfOk, OnOk};
ghost use Rattle.std.specs.Io.KnownBytes.{Appends};
ghost use Rattle.script.specs.Feeding.{stepped, outcome};
ghost use Rattle.script_input.specs.Reader.{Prints};
ghost use Rattle.text.specs.Text.{outcome_text};
ghost use Rattle.mend_text.specs.MendText.{output};
ghost use Rattle.mend.specs.Mended.{Mends};

use lines::Piece;
use script::Step;
use settings::Settings;
use std::io;
use std::io::{Read, Write};

fn main(rt: HostRuntime) -> io::Result<()> {
    mend_script(&mut rt.stdin(), &mut rt.stdout())
}

// A script's bytes, and the text of them. Memory is 16,384 words.
fn mend_script<R: Read, W: Write>(input: &mut R, to: &mut W) -> io::Result<()>
    ensures { OnOk result (Prints output (R.remaining input.old) (R.remaining input.new) (W.contents to.old) (W.contents to.new)) }
{
    let mut mem = [0u16; 16384];
    match script_input::read_script(input, &mut mem) {
        Step::Draw(settings) => {
            let mended = mend(to, settings, &mut mem)?;
            print(to, Step::Draw(mended), &mem)
        }
        Step::Refused(offset) => print(to, Step::Refused(offset), &mem),
        Step::More(s) => print(to, Step::More(s), &mem),
    }
}

// The changes of a list, each with its line; the settings after them. A write that fails ends them.
fn mend<W: Write>(to: &mut W, settings: Settings, mem: &mut [u16; 16384]) -> io::Result<Settings>
    ensures { IfOk result (λ after. Mends (W.contents to.old) (W.contents to.new) settings mem.old after mem.new) }
{
    let mut now = settings;
    let mut out = [0u8; 2048];
    while let Some(Piece { count, after }) = mend_text::next_change(now, mem, &mut out) {
        to.write_all(&out[..count])?;
        now = after;
    }
    Ok(now)
}

// A script's text; a write that fails ends it.
fn print<W: Write>(to: &mut W, script: Step, mem: &[u16; 16384]) -> io::Result<()>
    ensures { OnOk result (Appends (W.contents to.old) (W.contents to.new) (outcome_text (outcome (stepped script mem.now)))) }
{
    script_input::print(to, text::begin(script, mem), mem)
}
