#![tactic(auto)]
// A console's calls: settings, state and answers as lent slices of numbers at fixed places (include/thagaduvin.h has the table).
// The status of a call is 0 where it is accepted, else the number of document 01's refusal, or 255: a slice of the wrong length, or
// a number that no field can have. Then nothing is written.
ghost use Rattle.std.specs.Prelude.{◌≡◌};
ghost use Rattle.answers.specs.AfterCall.{answered};
ghost use Rattle.listed_answers.specs.AfterListed.{stated_listed, drawn_listed};
ghost use Rattle.thagaduvin.specs.Calls.{host_sheet, host_start, host_row, host_latch};

use answers::encode;
pub use bus_calls::thagaduvin_bus;
pub use mail_calls::{thagaduvin_read_mail, thagaduvin_write_mail};
use numbers::decode;
pub use writer_calls::thagaduvin_write_word;

mod bus_calls; // the call of the bus report
mod mail_calls; // the calls of a row's text
mod writer_calls; // the writer call of two desks

// The settings sheet, in `answer`.
#[tactic(auto, unfolding(crate::specs::Calls::host_sheet))]
pub fn thagaduvin_sheet(settings: &[u32], answer: &mut [u32]) -> u8
    ensures { answered result answer.new ≡ host_sheet settings.now answer.old }
{
    let Some(answer) = answer.as_mut_array() else {
        return 255;
    };
    match decode::settings_in(settings) {
        Some(s) => answers::sheet(s, answer),
        None => 255,
    }
}

// A frame's first state from a latch, in `state`, the words read, and their addresses in `list`.
#[tactic(auto, unfolding(crate::specs::Calls::host_start))]
pub fn thagaduvin_start(
    settings: &[u32],
    memory: &[u16],
    latch: u16,
    state: &mut [u32],
    list: &mut [u32],
    answer: &mut [u32],
) -> u8
    ensures { stated_listed result state.new list.new answer.new ≡ host_start settings.now memory.now latch state.old list.old answer.old }
{
    let Some(state) = state.as_mut_array() else {
        return 255;
    };
    let Some(answer) = answer.as_mut_array() else {
        return 255;
    };
    match decode::settings_in(settings) {
        Some(s) => listed_answers::start(s, memory, latch, state, list, answer),
        None => 255,
    }
}

// The next row: its cells in `cells`, the next state in `state`, the addresses of the words read in `list`.
#[tactic(auto, unfolding(crate::specs::Calls::host_row, numbers::specs::Decode::is_state, numbers::specs::Decode::state_in))]
pub fn thagaduvin_row(
    settings: &[u32],
    memory: &[u16],
    state: &mut [u32],
    cells: &mut [u32],
    list: &mut [u32],
    answer: &mut [u32],
) -> u8
    ensures { drawn_listed result state.new cells.new list.new answer.new ≡ host_row settings.now memory.now state.old cells.old list.old answer.old }
{
    let Some(answer) = answer.as_mut_array() else {
        return 255;
    };
    let Some(s) = decode::settings_in(settings) else {
        return 255;
    };
    let Some(state) = state.as_mut_array() else {
        return 255;
    };
    match decode::state_from(state) {
        Some(t) => listed_answers::next_row(s, memory, t, state, cells, list, answer),
        None => 255,
    }
}

// The latch that a frame hands on, in `answer`, from the latch that it was started with and the state that it ended with.
#[tactic(auto, unfolding(crate::specs::Calls::host_latch))]
pub fn thagaduvin_latch(latch: u16, state: &[u32], answer: &mut [u32]) -> u8
    ensures { answered result answer.new ≡ host_latch latch state.now answer.old }
{
    let Some(answer) = answer.as_mut_array() else {
        return 255;
    };
    match decode::state_in(state) {
        Some(s) => {
            encode::write_number(frame::handed_on(latch, s) as u32, answer);
            0
        }
        None => 255,
    }
}
