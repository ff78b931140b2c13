#![tactic(auto)]
// A console's call that converts a segmented list (libthagaduvin_convert.a), over slices and with statuses as thagaduvin's. It stands apart
// from libthagaduvin.a so that its rows keep their time: it has the code of a row in it once more.
ghost use Rattle.std.specs.Prelude.{◌≡◌, length};
ghost use Rattle.answers.specs.Changing.{left};
ghost use Rattle.converter.specs.Converter.{convert_call};
ghost use Rattle.thagaduvin_convert.specs.ConvertCalls.{settings_after, refusal_numbers, after_call, host_convert};

use memory::Refusal;
use numbers::decode;
use settings::Settings;

// The pointers that a frame from a latch reads turned into linear form, in `memory` and in `settings`, which are then linear; how many
// have changed in `answer`. `marks` are free.
#[tactic(auto, unfolding(crate::specs::ConvertCalls::host_convert, numbers::specs::Decode::settings_in))]
pub fn thagaduvin_convert(
    settings: &mut [u32],
    memory: &mut [u16],
    marks: &mut [u8],
    latch: u16,
    answer: &mut [u32],
) -> u8
    ensures { left result settings.new memory.new answer.new ≡ host_convert settings.old memory.old (length marks.old) latch answer.old }
{
    let Some(answer) = answer.as_mut_array() else {
        return 255;
    };
    let Some(settings) = settings.as_mut_array() else {
        return 255;
    };
    let s = decode::settings_at(settings);
    convert_into(s, settings, memory, marks, latch, answer)
}

// A conversion from settings, and what it leaves in their numbers.
fn convert_into(
    s: Settings,
    settings: &mut [u32; 18],
    memory: &mut [u16],
    marks: &mut [u8],
    latch: u16,
    answer: &mut [u32; 4],
) -> u8
    ensures { left result settings.new memory.new answer.new ≡ after_call settings.old (convert_call latch s memory.old (length marks.old)) }
{
    match conversion::convert(s, memory, marks, latch) {
        Ok(c) => {
            write_settings(c.settings, settings);
            answers::encode::write_number(c.pointers as u32, answer);
            0
        }
        Err(r) => {
            write_refusal(r, answer);
            r.number
        }
    }
}

// Settings that were turned, in their numbers.
#[tactic(auto, unfolding(crate::specs::ConvertCalls::settings_after))]
fn write_settings(turned: Settings, settings: &mut [u32; 18])
    ensures { settings.new ≡ settings_after turned settings.old }
{
    settings[0] = 1;
    settings[5] = turned.top.first as u32;
    settings[7] = turned.tow.first as u32;
}

// The numbers of a refusal.
#[tactic(auto, unfolding(crate::specs::ConvertCalls::refusal_numbers))]
fn write_refusal(r: Refusal, answer: &mut [u32; 4])
    ensures { answer.new ≡ refusal_numbers r }
{
    *answer = [r.row, r.address, r.from, 0];
}
