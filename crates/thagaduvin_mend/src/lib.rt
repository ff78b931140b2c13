#![tactic(auto)]
// A console's call that mends a damaged list (libthagaduvin_mend.a), over slices and with statuses as thagaduvin's. It stands apart from
// libthagaduvin.a so that its rows keep their time: it has the code of a row in it once more.
ghost use Rattle.std.specs.Prelude.{◌≡◌};
ghost use Rattle.answers.specs.Changing.{left};
ghost use Rattle.mending.specs.Mending.{mend_step};
ghost use Rattle.thagaduvin_mend.specs.MendCalls.{tow_after, change_numbers, after_step, host_mend};

use blame::Place;
use mending::{Change, MendAnswer};
use numbers::decode;
use settings::Settings;

// One step of mending: a frame is drawn from a latch, and where it is refused one pointer is set to 0, in `memory` or in `settings`; the
// change in `answer`.
#[tactic(auto, unfolding(crate::specs::MendCalls::host_mend, numbers::specs::Decode::settings_in))]
pub fn thagaduvin_mend(
    settings: &mut [u32],
    memory: &mut [u16],
    latch: u16,
    answer: &mut [u32],
) -> u8
    ensures { left result settings.new memory.new answer.new ≡ host_mend settings.old memory.old latch answer.old }
{
    let Some(answer) = answer.as_mut_array() else {
        return 255;
    };
    let Some(settings) = settings.as_mut_array() else {
        return 255;
    };
    let s = decode::settings_at(settings);
    mend_into(s, settings, memory, latch, answer)
}

// One step of mending from settings, and what it leaves in their numbers.
fn mend_into(
    s: Settings,
    settings: &mut [u32; 18],
    memory: &mut [u16],
    latch: u16,
    answer: &mut [u32; 8],
) -> u8
    ensures { left result settings.new memory.new answer.new ≡ after_step settings.old answer.old (mend_step latch s memory.old) }
{
    match mending::mend_step(s, memory, latch) {
        MendAnswer::Whole => {
            *answer = [0; 8];
            0
        }
        MendAnswer::Refused(r) => answers::encode::refuse(r, answer),
        MendAnswer::Changed {
            change,
            settings: _,
        } => {
            clear_tow(change.place, settings);
            write_change(change, answer);
            0
        }
    }
}

// TOW's numbers 0, where the pointer at a place is TOW.
#[tactic(auto, unfolding(crate::specs::MendCalls::tow_after))]
fn clear_tow(place: Place, settings: &mut [u32; 18])
    ensures { settings.new ≡ tow_after «place» settings.old }
{
    if let Place::Register = place {
        settings[7] = 0;
        settings[8] = 0;
    }
}

// The numbers of a change.
#[tactic(auto, unfolding(crate::specs::MendCalls::change_numbers))]
fn write_change(change: Change, into: &mut [u32; 8])
    ensures { into.new ≡ change_numbers change }
{
    *into = [
        0,
        0,
        0,
        1,
        mending::place_address(change.place),
        change.first as u32,
        change.second as u32,
        change.number as u32,
    ];
}
