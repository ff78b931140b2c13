// The words that the cells of a row are drawn from, left to right.
ghost use Rattle.std.specs.Prelude.{◌≡◌, ◌+◌, ◌≤◌, length};
ghost use Rattle.std.proofs.lemmas.List.Edits.{sets};
ghost use Rattle.memory.specs.Word.{when◌then◌else◌};
ghost use Rattle.blocks.specs.RowBlock.{segments_of};
ghost use Rattle.layout.specs.Layout.{width, total, over, segments_on};
ghost use Rattle.layout.specs.Answers.{overlay_of};
ghost use Rattle.codes.specs.Codes.{list_at, no_list};
ghost use Rattle.cells.specs.Answers.{Drawable};
ghost use Rattle.addresses.specs.Addresses.{written_to, fills, ends_in_fill, segment_addresses, segment_list, chosen_addresses, chosen_list, run_addresses, run_list, cell_addresses};

use crate::{Written, of_codes};
use blocks::{FillMode, Segment, SegmentCount};
use codes::{AttributeList, CodeSettings};
use layout::{OverlayHead, Side};
use memory::Pointer;

// A stretch of a row: what it was drawn by, the segments on a side, the column that they begin at, and the one up to which the fill run
// after them goes.
#[derive(Clone, Copy)]
struct Stretch {
    settings: CodeSettings,
    fill: FillMode,
    side: Side,
    column: usize,
    end: usize,
}

// The words of the cells of a row, as its plan says: the background's segments in `back`, a window's in `window`. Its cells tell which
// segments end in a fill run.
pub(crate) fn put_cells(
    mem: &[u16],
    settings: CodeSettings,
    fill: FillMode,
    overlay: Option<OverlayHead>,
    back: &[u16; 75],
    count: SegmentCount,
    window: &[u16; 75],
    cells: &[u32],
    at: usize,
    list: &mut [u32],
)
    requires drawable { Drawable settings.hidden (overlay_of settings.linear overlay window.now) (segments_of settings.linear count back.now) }
    requires cells_len { length cells.now ≡ 132 }
    requires back_in_bounds { at + length (cell_addresses settings mem.now fill cells.now (overlay_of settings.linear overlay window.now) (segments_of settings.linear count back.now)) ≤ length list.old }
    ensures { list.new ≡ sets list.old at (cell_addresses settings mem.now fill cells.now (overlay_of settings.linear overlay window.now) (segments_of settings.linear count back.now)) }
{
    let to = Written {
        at,
        list: no_list(),
    };
    match overlay {
        None => {
            let stretch = Stretch {
                settings,
                fill,
                side: Side::Whole,
                column: 0,
                end: 132,
            };
            put_stretch(mem, cells, stretch, back, count, to, list);
        }
        Some(o) => put_around(
            mem, settings, fill, o.first, o.end, back, count, window, o.count, cells, to, list,
        ),
    }
}

// The background before a window, the window, and the background after it.
fn put_around(
    mem: &[u16],
    settings: CodeSettings,
    fill: FillMode,
    first: usize,
    end: usize,
    back: &[u16; 75],
    count: SegmentCount,
    window: &[u16; 75],
    n: SegmentCount,
    cells: &[u32],
    to: Written,
    list: &mut [u32],
)
    requires drawable { Drawable settings.hidden (over 0 first end (segments_of settings.linear n window.now)) (segments_of settings.linear count back.now) }
    requires cells_len { (length cells.now ≡ 132) × (to.list ≡ no_list) }
    requires back_in_bounds { to.at + length (cell_addresses settings mem.now fill cells.now (over 0 first end (segments_of settings.linear n window.now)) (segments_of settings.linear count back.now)) ≤ length list.old }
    ensures { list.new ≡ sets list.old to.at (cell_addresses settings mem.now fill cells.now (over 0 first end (segments_of settings.linear n window.now)) (segments_of settings.linear count back.now)) }
{
    let before_it = Stretch {
        settings,
        fill,
        side: Side::Before(first),
        column: 0,
        end: first,
    };
    let before = put_stretch(mem, cells, before_it, back, count, to, list);
    let within = Stretch {
        settings,
        fill,
        side: Side::Whole,
        column: first,
        end,
    };
    let begun = Written {
        at: before.at,
        list: no_list(),
    };
    let inside = put_stretch(mem, cells, within, window, n, begun, list);
    let side = Side::After(first, end);
    let after_it = Stretch {
        settings,
        fill,
        side,
        column: end,
        end: 132,
    };
    let resumed = before.list;
    let going = Written {
        at: inside.at,
        list: resumed,
    };
    put_stretch(mem, cells, after_it, back, count, going, list);
}

// The segments on a side, then the fill run up to the column `end`.
fn put_stretch(
    mem: &[u16],
    cells: &[u32],
    stretch: Stretch,
    segments: &[u16; 75],
    count: SegmentCount,
    from: Written,
    list: &mut [u32],
) -> Written
    requires segments_bound { (stretch.column + total stretch.settings.hidden (segments_on stretch.side stretch.settings.hidden 0 (segments_of stretch.settings.linear count segments.now)) ≤ 132) × (length cells.now ≡ 132) }
    requires list_in_bounds { from.at + length (run_addresses stretch.settings mem.now stretch.fill cells.now stretch.column (segments_on stretch.side stretch.settings.hidden 0 (segments_of stretch.settings.linear count segments.now)) stretch.end from.list) ≤ length list.old }
    ensures value { result ≡ written_to from.at (run_addresses stretch.settings mem.now stretch.fill cells.now stretch.column (segments_on stretch.side stretch.settings.hidden 0 (segments_of stretch.settings.linear count segments.now)) stretch.end from.list) (run_list stretch.settings mem.now stretch.fill cells.now stretch.column (segments_on stretch.side stretch.settings.hidden 0 (segments_of stretch.settings.linear count segments.now)) stretch.end from.list) }
    ensures list_after { list.new ≡ sets list.old from.at (run_addresses stretch.settings mem.now stretch.fill cells.now stretch.column (segments_on stretch.side stretch.settings.hidden 0 (segments_of stretch.settings.linear count segments.now)) stretch.end from.list) }
{
    let settings = stretch.settings;
    let fill = stretch.fill;
    let side = stretch.side;
    let n = count.number as usize;
    let mut to = from;
    let mut column = stretch.column;
    let mut s = 0;
    for i in 0..n {
        let g = blocks::segment_at(settings.linear, count, segments, i);
        let w = layout::width(settings.hidden, g);
        let chosen = layout::on_side(side, s, w);
        to = put_chosen(mem, settings, fill, cells, chosen, column, g, to, list);
        column += chosen_width(chosen, w);
        s += w;
    }
    let l = to.list;
    let due = does_fill(fill, l, column < stretch.end);
    of_codes::put_taken(settings.linear, due, l, to.at, list)
}

// The columns that a segment takes: none where it is not chosen.
fn chosen_width(chosen: bool, w: usize) -> usize
    ensures { result ≡ (when chosen then w else 0) }
{
    if chosen { w } else { 0 }
}

// One segment from a column on, where it is chosen.
fn put_chosen(
    mem: &[u16],
    settings: CodeSettings,
    fill: FillMode,
    cells: &[u32],
    chosen: bool,
    column: usize,
    g: Segment,
    to: Written,
    list: &mut [u32],
) -> Written
    requires else_in_bounds { column + (when chosen then width settings.hidden g else 0) ≤ length cells.now }
    requires g_in_bounds { to.at + length (chosen_addresses settings mem.now fill cells.now chosen column g) ≤ length list.old }
    ensures value { result ≡ written_to to.at (chosen_addresses settings mem.now fill cells.now chosen column g) (chosen_list settings mem.now fill cells.now chosen column g to.list) }
    ensures list_after { list.new ≡ sets list.old to.at (chosen_addresses settings mem.now fill cells.now chosen column g) }
{
    if chosen {
        put_segment(mem, settings, fill, cells, column, g, to.at, list)
    } else {
        to
    }
}

// One segment from a column on.
fn put_segment(
    mem: &[u16],
    settings: CodeSettings,
    fill: FillMode,
    cells: &[u32],
    column: usize,
    g: Segment,
    at: usize,
    list: &mut [u32],
) -> Written
    requires g_in_bounds { column + width settings.hidden g ≤ length cells.now }
    requires g_in_bounds_2 { at + length (segment_addresses settings mem.now fill cells.now column g) ≤ length list.old }
    ensures value { result ≡ written_to at (segment_addresses settings mem.now fill cells.now column g) (segment_list settings mem.now fill cells.now column g) }
    ensures list_after { list.new ≡ sets list.old at (segment_addresses settings mem.now fill cells.now column g) }
{
    let end = column + layout::width(settings.hidden, g);
    let first = g.codes;
    let attributes = g.attributes;
    let to = of_codes::put_codes(
        mem,
        settings,
        cells::code_count(g),
        first,
        list_at(attributes),
        at,
        list,
    );
    let l = to.list;
    let due = does_fill(fill, l, ends_in_fill(cells, column, end));
    of_codes::put_taken(settings.linear, due, l, to.at, list)
}

// Does a fill run take a word of the list in use, where there is a run?
fn does_fill(fill: FillMode, l: AttributeList, run: bool) -> bool
    ensures { result ≡ fills fill l run }
{
    fill.flag & l.present & run
}

// Does a segment from the column `c` to before `end` have a fill run? Then its last cell is of source 0.
fn ends_in_fill(cells: &[u32], c: usize, end: usize) -> bool
    requires { end ≤ length cells.now }
    ensures { result ≡ ends_in_fill cells.now c end }
{
    if c < end {
        cells[end - 1] / 1048576 % 4 == 0
    } else {
        false
    }
}

// The list of an attribute pointer; none of a null one.
fn list_at(p: Pointer) -> AttributeList
    ensures { result ≡ list_at p }
{
    AttributeList {
        present: p.address != 0,
        next: p,
    }
}

fn no_list() -> AttributeList
    ensures { result ≡ no_list }
{
    list_at(Pointer::NULL)
}
