#![tactic(auto)]
// The addresses of the words that an accepted start or row reads, in order, written into a list.
ghost use Rattle.std.specs.Prelude.{◌≡◌, List, ℕ, ◌+◌, ◌≤◌, length};
ghost use Rattle.std.proofs.lemmas.List.Edits.{sets};
ghost use Rattle.memory.specs.Word.{when◌then◌else◌};
ghost use Rattle.blocks.specs.RowBlock.{segments_of};
ghost use Rattle.layout.specs.Answers.{overlay_of};
ghost use Rattle.cells.specs.Answers.{Drawable};
ghost use Rattle.addresses.specs.Addresses.{start_addresses, block_addresses, row_addresses};

use blocks::SegmentCount;
use codes::{AttributeList, CodeSettings};
use layout::OverlayHead;
use settings::Settings;
use state::Fields;

mod consecutive; // words one after the other
mod of_blocks; // the blocks of a row
mod of_cells; // the cells of a row, left to right
mod of_codes; // the codes of a segment, and the words that they take
mod of_listed; // the codes of a segment with a list, faster where their words stand one after the other in memory

// Where writing stands: the next place of the list, and the attribute list in use.
#[derive(Clone, Copy)]
pub struct Written {
    pub at: usize,
    pub list: AttributeList,
}

// Those of a start, from the first place on: its main block, and the first window's.
pub fn put_start(settings: Settings, list: &mut [u32])
    requires { 13 ≤ length list.old }
    ensures { list.new ≡ sets list.old 0 (start_addresses settings) }
{
    let linear = settings.linear;
    let top = memory::pointer_of(linear, 0, settings.top.first, settings.top.second);
    let tow = memory::pointer_of(linear, 0, settings.tow.first, settings.tow.second);
    let at = consecutive::put_pointed(linear, 7, top, 0, list);
    consecutive::put_pointed(linear, 6, tow, at, list);
}

// Those of a row's plan, from its fields, from the place `at` on: its blocks. The next place.
pub fn put_blocks(
    mem: &[u16],
    linear: bool,
    fields: Fields,
    overlay: Option<OverlayHead>,
    at: usize,
    list: &mut [u32],
) -> usize
    requires { (ws : List ℕ) → at + length (block_addresses linear mem.now fields (overlay_of linear overlay ws)) ≤ length list.old }
    ensures by_index { (ws : List ℕ) → result ≡ at + length (block_addresses linear mem.now fields (overlay_of linear overlay ws)) }
    ensures by_index_2 { (ws : List ℕ) → list.new ≡ sets list.old at (block_addresses linear mem.now fields (overlay_of linear overlay ws)) }
{
    let next = fields.next;
    let in_hand = fields.window;
    let due = of_blocks::due_of(fields.row, in_hand);
    let rows = of_blocks::over_rows(mem, linear, fields.row, in_hand, overlay);
    of_blocks::put_plan(mem, linear, due, next, rows, at, list)
}

// Those of a row from its fields, from the place `at` on: the blocks of its plan, then, unless they stand there already, what its cells are
// drawn from, the background's segments in `back`, a window's in `window`. Its cells tell which segments end in a fill run.
pub fn put_row(
    mem: &[u16],
    settings: CodeSettings,
    fields: Fields,
    overlay: Option<OverlayHead>,
    back: &[u16; 75],
    count: SegmentCount,
    window: &[u16; 75],
    cells: &[u32],
    noted: bool,
    at: usize,
    list: &mut [u32],
)
    requires drawable { Drawable settings.hidden (overlay_of settings.linear overlay window.now) (segments_of settings.linear count back.now) }
    requires cells_len { length cells.now ≡ 132 }
    requires cells_in_bounds { at + length (row_addresses settings mem.now fields (overlay_of settings.linear overlay window.now) (segments_of settings.linear count back.now) cells.now) ≤ length list.old }
    ensures { list.new ≡ sets list.old at (when noted then block_addresses settings.linear mem.now fields (overlay_of settings.linear overlay window.now) else row_addresses settings mem.now fields (overlay_of settings.linear overlay window.now) (segments_of settings.linear count back.now) cells.now) }
{
    let linear = settings.linear;
    let fill = fields.fill;
    let then = put_blocks(mem, linear, fields, overlay, at, list);
    if !noted {
        of_cells::put_cells(
            mem, settings, fill, overlay, back, count, window, cells, then, list,
        );
    }
}
