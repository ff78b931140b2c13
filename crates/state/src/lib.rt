#![tactic(auto)]
// The state of a frame, and whether it is in range: refusal 3.
ghost use Rattle.std.specs.Prelude.{◌≡◌};
ghost use Rattle.state.specs.State.{format_in_range, pointer_in_range, window_in_range, in_range};

use blocks::{Cursor, FillMode, RowFormat};
use memory::Pointer;
use windows::Window;

// The state's fields other than the latch: row number, lines left, cursor, fill, format (scan lines, row attributes, CURS,
// CURE), next row block and the window in hand.
#[derive(Clone, Copy, PartialEq, Eq)]
pub struct Fields {
    pub row: u32,
    pub left: u16,
    pub cursor: Cursor,
    pub fill: FillMode,
    pub format: RowFormat,
    pub next: Pointer,
    pub window: Option<Window>,
}

// The state between two rows: the latched attribute, and the other fields.
#[derive(Clone, Copy, PartialEq, Eq)]
pub struct State {
    pub latch: u16,
    pub fields: Fields,
}

// Are the fields in range? Every test is made (`&`), so there is one way through.
pub fn in_range(f: Fields) -> bool
    ensures { result ≡ in_range f }
{
    let format = f.format;
    let window = f.window;
    (f.row as u64 + f.left as u64 <= 4095)
        & format_in_range(format)
        & pointer_in_range(f.next.address, f.next.from)
        & window_in_range(window)
}

fn format_in_range(t: RowFormat) -> bool
    ensures { result ≡ format_in_range t }
{
    (1 <= t.lines) & (t.lines <= 32) & (t.curs <= 31) & (t.cure <= 31) & (t.attributes <= 1023)
}

// A pointer's address, and where it begins: a null one nowhere. They come as two numbers: a pointer copied whole would be read in one
// piece where its two parts have just been written.
fn pointer_in_range(address: u32, from: u32) -> bool
    ensures { result ≡ pointer_in_range (record { address = address; from = from }) }
{
    memory::is_address(address) & memory::is_address(from) & ((address != 0) | (from == 0))
}

fn window_in_range(in_hand: Option<Window>) -> bool
    ensures { result ≡ window_in_range in_hand }
{
    match in_hand {
        None => true,
        Some(w) => {
            let block = w.block;
            windows::in_order(block)
                & (block.number <= block.top)
                & pointer_in_range(w.rows.address, w.rows.from)
                & pointer_in_range(w.block.link.address, w.block.link.from)
        }
    }
}
