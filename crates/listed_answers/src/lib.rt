#![tactic(auto)]
// The start of a frame and a row with a list of the addresses read, with what each leaves in its slices of numbers. Each gives the call's
// status.
ghost use Rattle.std.specs.Prelude.{◌≡◌};
ghost use Rattle.listed.specs.Listed.{start_listed, row_listed};
ghost use Rattle.listed_answers.specs.AfterListed.{stated_listed, after_start_listed, drawn_listed, after_row_listed};

use settings::Settings;
use state::State;

// A frame's first state from a latch, in `state`, the words read, in `answer`, and their addresses, in `list`.
pub fn start(
    settings: Settings,
    memory: &[u16],
    latch: u16,
    state: &mut [u32; 23],
    list: &mut [u32],
    answer: &mut [u32; 4],
) -> u8
    ensures { stated_listed result state.new list.new answer.new ≡ after_start_listed state.old answer.old (start_listed latch settings memory.now list.old) }
{
    match listed::start(settings, memory, latch, list) {
        Ok(s) => {
            let first = s.state;
            numbers::encode::write_state(first, state);
            answers::encode::write_number(s.words, answer);
            0
        }
        Err(r) => answers::encode::refuse(r, answer),
    }
}

// The next row: its cells in `cells`, the next state in `state`, the addresses of the words read in `list`.
#[tactic(auto, unfolding(answers::specs::AnswerNumbers::row_numbers))]
pub fn next_row(
    settings: Settings,
    memory: &[u16],
    from: State,
    state: &mut [u32; 23],
    cells: &mut [u32],
    list: &mut [u32],
    answer: &mut [u32; 8],
) -> u8
    ensures { drawn_listed result state.new cells.new list.new answer.new ≡ after_row_listed state.old answer.old (row_listed settings memory.now from cells.old list.old) }
{
    match listed::row(settings, memory, from, cells, list) {
        Ok(d) => {
            let next = d.next;
            numbers::encode::write_state(next, state);
            answers::encode::write_row(d.number, d.lines, d.format, d.words, answer);
            0
        }
        Err(r) => answers::encode::refuse(r, answer),
    }
}
