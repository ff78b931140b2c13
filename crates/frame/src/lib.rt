#![tactic(auto)]
// A frame, row by row: its start, and its row calls until no line is left.
ghost use Rattle.std.specs.Prelude.{◌≡◌, ◌≤◌, min};
ghost use Rattle.frame.specs.HandedOn.{latch_after, HandsOn};
ghost use Rattle.frame.specs.Step.{begin, stepped, step, in_bound, words_bound, FewerLines};

use memory::Refusal;
use row::DrawnRow;
use settings::Settings;
use state::State;

// A frame in progress: the state that its next row is called on, and the words that its start and its rows so far have read.
#[derive(Clone, Copy)]
pub struct Progress {
    pub state: State,
    pub words: u32,
}

// A row, with the frame in progress after it; the end of the frame, whose row numbers stop before `rows`; or a refusal, which
// ends the frame.
#[derive(Clone, Copy)]
pub enum StepAnswer {
    Drawn { row: DrawnRow, progress: Progress },
    Ended { rows: u32, words: u32 },
    Refused(Refusal),
}

// A frame's start from a latch: the frame in progress before its first row, or the start's refusal.
pub fn begin(settings: Settings, mem: &[u16], latch: u16) -> Result<Progress, Refusal>
    ensures { result ≡ begin latch settings mem.now }
{
    let started = start::start(settings, mem, latch)?;
    let state = started.state;
    Ok(Progress {
        state,
        words: started.words,
    })
}

// A frame's next row, its cells in `buffer`, while lines are left. A step that draws no row leaves the buffer as it was, and the
// frame in progress is the one handed in.
pub fn step(settings: Settings, mem: &[u16], progress: Progress, buffer: &mut [u32]) -> StepAnswer
    ensures fewer_lines { FewerLines progress result }
    ensures buffer_after { stepped result buffer.new ≡ step settings mem.now (in_bound progress) buffer.old }
{
    let state = progress.state;
    let words = bound_words(progress.words, state.fields.row);
    if state.fields.left == 0 {
        return StepAnswer::Ended {
            rows: state.fields.row,
            words,
        };
    }
    match row::row(settings, mem, state, buffer) {
        Err(refusal) => StepAnswer::Refused(refusal),
        Ok(row) => {
            let next = row.next;
            let progress = Progress {
                state: next,
                words: words + row.words,
            };
            StepAnswer::Drawn { row, progress }
        }
    }
}

// The latch that a frame hands on to the next one, from the latch that it was started with and the state that it ended with. A frame
// whose start was refused has no state, and hands on the latch that it was started with.
pub fn handed_on(latch: u16, state: State) -> u16
    ensures value { result ≡ latch_after latch state }
    ensures hands_on { HandsOn latch state result }
{
    if 0 < state.fields.left {
        return latch;
    }
    state.latch
}

// A count of words that a frame can have before a row, so that a row's words can be added.
fn bound_words(words: u32, row: u32) -> u32
    ensures value { result ≡ min words (words_bound row) }
    ensures upper_bound { result ≤ 49152000 }
{
    let bound = 12000 * (row.min(4095) + 1);
    words.min(bound)
}
