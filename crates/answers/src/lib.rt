#![tactic(auto)]
// The settings sheet, with what it leaves in its slice of numbers: it gives the call's status. Answers as numbers.
ghost use Rattle.std.specs.Prelude.{◌≡◌};
ghost use Rattle.settings.specs.Sheet.{sheet_call};
ghost use Rattle.answers.specs.AfterCall.{answered, after_sheet};

use settings::Settings;

pub mod encode; // answers as numbers

// The settings sheet, in `answer`.
pub fn sheet(settings: Settings, answer: &mut [u32; 21]) -> u8
    ensures { answered result answer.new ≡ after_sheet answer.old (sheet_call settings) }
{
    match settings::settings_sheet(settings) {
        Ok(s) => {
            encode::write_sheet(s, answer);
            0
        }
        Err(r) => encode::refuse(r, answer),
    }
}
