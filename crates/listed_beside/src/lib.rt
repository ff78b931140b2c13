#![tactic(auto)]
// The row beside the cut with a list of the addresses that it reads, in order.
ghost use Rattle.std.specs.Prelude.{◌≡◌};
ghost use Rattle.listed_beside.specs.ListedBeside.{beside_with, below_listed, above_listed, beside_listed};

use beside::BesideRow;
use memory::Refusal;
use settings::{PointerWords, Settings};
use state::State;

// The row beside the cut of a frame with a shift, its cells in `buffer` and its addresses in `list`; none where the shift is 0, and then
// neither is looked at.
pub fn beside(
    settings: Settings,
    mem: &[u16],
    shift: i32,
    soft: PointerWords,
    latch: u16,
    last: State,
    buffer: &mut [u32],
    list: &mut [u32],
) -> Result<Option<BesideRow>, Refusal>
    ensures { beside_with result buffer.new list.new ≡ beside_listed settings mem.now shift soft latch last buffer.old list.old }
{
    if 0 < shift {
        return row_below(settings, mem, last, buffer, list);
    }
    if shift < 0 {
        return row_above(beside::with_top(settings, soft), mem, latch, buffer, list);
    }
    Ok(None)
}

// Up: the row after the frame's last, given one line.
fn row_below(
    settings: Settings,
    mem: &[u16],
    last: State,
    buffer: &mut [u32],
    list: &mut [u32],
) -> Result<Option<BesideRow>, Refusal>
    ensures { beside_with result buffer.new list.new ≡ below_listed settings mem.now last buffer.old list.old }
{
    let f = last.fields;
    let fields = beside::with_one_line(f);
    let state = State {
        latch: last.latch,
        fields,
    };
    let row = listed::row(settings, mem, state, buffer, list)?;
    Ok(Some(beside::tell(0, row)))
}

// Down: row 0 of a start with these settings. The start's addresses are written last, once its row is accepted.
fn row_above(
    settings: Settings,
    mem: &[u16],
    latch: u16,
    buffer: &mut [u32],
    list: &mut [u32],
) -> Result<Option<BesideRow>, Refusal>
    ensures { beside_with result buffer.new list.new ≡ above_listed settings mem.now latch buffer.old list.old }
{
    if buffer.len() != 132 {
        return memory::refused(1);
    }
    if list.len() != 12000 {
        return memory::refused(25);
    }
    let started = start::start(settings, mem, latch)?;
    let state = started.state;
    let at = started.words as usize;
    let row = listed::row_at(settings, mem, state, buffer, at, list)?;
    addresses::put_start(settings, list);
    Ok(Some(beside::tell(started.words, row)))
}
