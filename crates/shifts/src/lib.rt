#![tactic(auto)]
// The shift call and the row beside the cut, with what each leaves in its slices of numbers. Each gives the call's status.
ghost use Rattle.std.specs.Prelude.{◌≡◌};
ghost use Rattle.scroll.specs.Scroll.{shift_call};
ghost use Rattle.listed_beside.specs.ListedBeside.{beside_listed};
ghost use Rattle.answers.specs.AfterCall.{stated};
ghost use Rattle.shifts.specs.AfterShift.{scroll_numbers, scroll_of, top_numbers, after_shift, beside_done, after_beside, no_state, beside_from};

use beside::BesideRow;
use blocks::{Cursor, FillMode, RowFormat};
use memory::Pointer;
use numbers::decode;
use scroll::Scroll;
use settings::{PointerWords, Settings};
use state::{Fields, State};

// A shift call from the scroll in `scroll`: the next one there, and the hard top in `answer`.
pub fn next_shift(
    settings: Settings,
    memory: &[u16],
    soft: PointerWords,
    scroll: &mut [u32; 3],
    answer: &mut [u32; 5],
) -> u8
    ensures { stated result scroll.new answer.new ≡ after_shift scroll.old answer.old (shift_call settings memory.now soft (scroll_of scroll.old)) }
{
    let last = Scroll {
        shift: scroll[0].cast_signed(),
        phase: scroll[1],
        direction: scroll[2],
    };
    match scroll::shift(settings, memory, soft, last) {
        Ok(s) => {
            let next = s.scroll;
            let top = s.top;
            write_scroll(next, scroll);
            write_top(top, answer);
            0
        }
        Err(r) => answers::encode::refuse(r, answer),
    }
}

// The row beside the cut, its cells in `cells` and its addresses in `list`, after the state in `state`, which is looked at where the shift is positive.
#[tactic(auto, unfolding(crate::specs::AfterShift::beside_from))]
pub fn beside_from(
    settings: Settings,
    memory: &[u16],
    shift: i32,
    soft: PointerWords,
    latch: u16,
    state: &[u32],
    cells: &mut [u32],
    list: &mut [u32],
    answer: &mut [u32; 8],
) -> u8
    ensures { beside_done result cells.new list.new answer.new ≡ beside_from settings memory.now shift soft latch state.now cells.old list.old answer.old }
{
    if 0 < shift {
        return match decode::state_in(state) {
            Some(last) => {
                next_beside(
                    settings, memory, shift, soft, latch, last, cells, list, answer,
                )
            }
            None => 255,
        };
    }
    next_beside(
        settings,
        memory,
        shift,
        soft,
        latch,
        no_state(),
        cells,
        list,
        answer,
    )
}

// The row beside the cut: its cells in `cells`, its addresses in `list`.
#[tactic(auto, unfolding(crate::specs::AfterShift::beside_numbers))]
fn next_beside(
    settings: Settings,
    memory: &[u16],
    shift: i32,
    soft: PointerWords,
    latch: u16,
    last: State,
    cells: &mut [u32],
    list: &mut [u32],
    answer: &mut [u32; 8],
) -> u8
    ensures { beside_done result cells.new list.new answer.new ≡ after_beside answer.old (beside_listed settings memory.now shift soft latch last cells.old list.old) }
{
    match listed_beside::beside(settings, memory, shift, soft, latch, last, cells, list) {
        Ok(None) => {
            *answer = [0; 8];
            0
        }
        Ok(Some(row)) => {
            answers::encode::write_row(row.number, row.lines, row.format, row.words, answer);
            0
        }
        Err(r) => answers::encode::refuse(r, answer),
    }
}

// The state of a call that looks at none.
fn no_state() -> State
    ensures { result ≡ no_state }
{
    let cursor = Cursor { x: 0, y: 0 };
    let fill = FillMode {
        code: 0,
        flag: false,
    };
    let format = RowFormat {
        lines: 0,
        attributes: 0,
        curs: 0,
        cure: 0,
    };
    let fields = Fields {
        row: 0,
        left: 0,
        cursor,
        fill,
        format,
        next: Pointer::NULL,
        window: None,
    };
    State { latch: 0, fields }
}

// A scroll's three numbers, the shift in two's complement.
fn write_scroll(s: Scroll, into: &mut [u32; 3])
    ensures { into.new ≡ scroll_numbers s }
{
    *into = [s.shift.cast_unsigned(), s.phase, s.direction];
}

// The numbers of an accepted shift call, the hard top last.
fn write_top(top: PointerWords, into: &mut [u32; 5])
    ensures { into.new ≡ top_numbers top }
{
    *into = [0, 0, 0, top.first as u32, top.second as u32];
}
