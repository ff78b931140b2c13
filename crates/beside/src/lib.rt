#![tactic(auto)]
// The row beside the cut of a soft scroll, in a row buffer of its own.
ghost use Rattle.std.specs.Prelude.{◌≡◌, ◌<◌};
ghost use Rattle.beside.specs.Beside.{told, beside_called, with_one_line, row_below, with_top, row_above, beside_call};

use blocks::RowFormat;
use memory::Refusal;
use row::DrawnRow;
use settings::{PointerWords, Settings};
use state::{Fields, State};

// The answer of an accepted row beside the cut: no next state, since nothing of it goes on into the frame.
#[derive(Clone, Copy)]
pub struct BesideRow {
    pub number: u32,
    pub lines: u16,
    pub format: RowFormat,
    pub words: u32,
}

// The row beside the cut of a frame with a shift, its cells in `buffer`: up, the row after `last`, the state that the frame ended with;
// down, row 0 of a start at the soft top from the frame's start latch; none where the shift is 0.
pub fn beside(
    settings: Settings,
    mem: &[u16],
    shift: i32,
    soft: PointerWords,
    latch: u16,
    last: State,
    buffer: &mut [u32],
) -> Result<Option<BesideRow>, Refusal>
    ensures { beside_called result buffer.new ≡ beside_call settings mem.now shift soft latch last buffer.old }
{
    if 0 < shift {
        return row_below(settings, mem, last, buffer);
    }
    if shift < 0 {
        return row_above(with_top(settings, soft), mem, latch, buffer);
    }
    Ok(None)
}

// Up: the row after the frame's last, given one line.
fn row_below(
    settings: Settings,
    mem: &[u16],
    last: State,
    buffer: &mut [u32],
) -> Result<Option<BesideRow>, Refusal>
    ensures { beside_called result buffer.new ≡ row_below settings mem.now last buffer.old }
{
    let f = last.fields;
    let fields = with_one_line(f);
    let state = State {
        latch: last.latch,
        fields,
    };
    let row = row::row(settings, mem, state, buffer)?;
    Ok(Some(tell(0, row)))
}

// Down: row 0 of a start with these settings.
fn row_above(
    settings: Settings,
    mem: &[u16],
    latch: u16,
    buffer: &mut [u32],
) -> Result<Option<BesideRow>, Refusal>
    ensures { beside_called result buffer.new ≡ row_above settings mem.now latch buffer.old }
{
    if buffer.len() != 132 {
        return memory::refused(1);
    }
    let started = start::start(settings, mem, latch)?;
    let state = started.state;
    let row = row::row(settings, mem, state, buffer)?;
    Ok(Some(tell(started.words, row)))
}

// An accepted row's answer, `words` having been read for it before.
pub fn tell(words: u32, row: DrawnRow) -> BesideRow
    requires { (words < 14) × (row.words < 12000) }
    ensures { Ok (Some result) ≡ told words (Ok row) }
{
    let format = row.format;
    BesideRow {
        number: row.number,
        lines: row.lines,
        format,
        words: words + row.words,
    }
}

// The fields of the row below the frame's last.
pub fn with_one_line(f: Fields) -> Fields
    ensures { result ≡ with_one_line f }
{
    Fields { left: 1, ..f }
}

// The settings with another hard top.
pub fn with_top(settings: Settings, top: PointerWords) -> Settings
    ensures { result ≡ with_top settings top }
{
    Settings { top, ..settings }
}
