#![tactic(auto)]
// The text that the converting program prints, a piece at a time: the script of a converted list, or the line of a refusal.
ghost use Rattle.std.specs.Prelude.{◌≡◌, length};
ghost use Rattle.script.specs.Feeding.{stepped, outcome};
ghost use Rattle.converter.specs.Converter.{convert_call};
ghost use Rattle.convert_text.specs.Registers.{turned_registers};
ghost use Rattle.convert_text.specs.ConvertText.{called_text, outcome_text, left, called_left, outcome_left};
ghost use Rattle.convert_text.specs.ToCome.{to_come, calls, Next};

use lines::{Piece, Pieces};
use memory::Refusal;
use script::Step;
use settings::Settings;

// What of a text is still to come.
#[derive(Clone, Copy)]
pub enum Text {
    Script(image::Text), // of a script
    Refused(Refusal), // the line of a refused conversion
    NoScript(u64), // the line of a script that is refused at this offset
    Ended,
}

// The registers and the memory of a script.
#[derive(Clone, Copy)]
pub struct Contents {
    pub registers: [u16; 25],
    pub mem: [u16; 16384],
}

// The text of a script, from where its bytes led; its input ends here. The list that it draws is converted in `registers` and `mem`.
pub fn begin(script: Step, registers: &mut [u16; 25], mem: &mut [u16; 16384]) -> Text
    ensures { (to_come registers.new mem.new result ≡ outcome_text registers.old (outcome (stepped script mem.old)))
        × (left registers.new mem.new ≡ outcome_left registers.old mem.old (outcome (stepped script mem.old))) }
{
    match script {
        Step::Draw(settings) => begin_converted(settings, registers, mem),
        Step::Refused(offset) => Text::NoScript(offset),
        Step::More(s) => Text::NoScript(script::at_end(s)),
    }
}

// The list is converted for the first frame that a console draws: from latch 0.
fn begin_converted(settings: Settings, registers: &mut [u16; 25], mem: &mut [u16; 16384]) -> Text
    ensures { (to_come registers.new mem.new result ≡ called_text registers.old (convert_call 0 settings mem.old (length mem.old)))
        × (left registers.new mem.new ≡ called_left registers.old (convert_call 0 settings mem.old (length mem.old))) }
{
    let mut marks = [0u8; 16384];
    match conversion::convert(settings, mem, &mut marks, 0) {
        Ok(accepted) => {
            turn_registers(registers);
            Text::Script(image::Text::Head(image::switches_of(accepted.settings)))
        }
        Err(refusal) => Text::Refused(refusal),
    }
}

// The first words of the soft tops, of TOP and of TOW, turned.
fn turn_registers(registers: &mut [u16; 25])
    ensures { registers.new ≡ turned_registers registers.old }
{
    registers[0x04] = registers[0x04] / 256 % 128;
    registers[0x06] = registers[0x06] / 256 % 128;
    registers[0x09] = registers[0x09] / 256 % 128;
    registers[0x0b] = registers[0x0b] / 256 % 128;
}

impl Pieces for Text {
    type Of = Contents;

    ghost to_come = { λ c. to_come c.registers c.mem };

    ghost calls = { calls };

    fn next(self, of: &Contents, out: &mut [u8; 2048]) -> Option<Piece<Text>> {
        next(self, &of.registers, &of.mem, out)
    }
}

// The next piece of a text, at the start of `out`; or that it is at its end.
pub fn next(
    text: Text,
    registers: &[u16; 25],
    mem: &[u16; 16384],
    out: &mut [u8; 2048],
) -> Option<Piece<Text>>
    ensures { Next registers.now mem.now text result out.new }
{
    match text {
        Text::Script(t) => {
            let Piece { count, after } = image::next(t, registers, mem, out)?;
            Some(Piece {
                count,
                after: Text::Script(after),
            })
        }
        Text::Refused(refusal) => Some(Piece {
            count: lines::refusal_line(refusal, out),
            after: Text::Ended,
        }),
        Text::NoScript(offset) => Some(Piece {
            count: lines::script_line(offset, out),
            after: Text::Ended,
        }),
        Text::Ended => None,
    }
}
