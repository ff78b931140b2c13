#![tactic(auto)]
// Rows that no reading of their cells refuses: told before a cell is drawn, and drawn with the addresses of their words noted as they
// are read. So nothing has to be put back, and no word is looked at again for its address.
ghost use Rattle.std.specs.Prelude.{◌≡◌, true, false, ◌&&◌, not, ◌+◌, ◌*◌, ◌/◌, ◌≤◌, ◌<◌, length, eqb};
ghost use Rattle.memory.specs.Word.{when◌then◌else◌};
ghost use Rattle.memory.specs.Reading.{done, each, given};
ghost use Rattle.memory.specs.Answers.{is_run};
ghost use Rattle.blocks.specs.RowBlock.{segments_of};
ghost use Rattle.layout.specs.Layout.{width, total, over, segments_on};
ghost use Rattle.layout.specs.Answers.{overlay_of};
ghost use Rattle.codes.specs.Codes.{blank, codes};
ghost use Rattle.codes.specs.Answers.{so_far};
ghost use Rattle.cells.specs.Cells.{code_count, fill_to, segment, segments_to, row_cells};
ghost use Rattle.cells.specs.Answers.{Drawable};
ghost use Rattle.noting.specs.Noting.{noted, noting};
ghost use Rattle.sure.specs.Sure.{stands, sure_segment, sure_all, sure_row};

use blocks::{FillMode, Segment, SegmentCount};
use codes::{CodeSettings, Pen, Reached, Room, Source, pens};
use layout::{OverlayHead, Side};
use memory::Pointer;

pub mod known; // is a row sure?

// A stretch of a row: what it is drawn by, the segments on a side, their source, and the column up to which the fill run after them goes.
#[derive(Clone, Copy)]
struct Stretch {
    settings: CodeSettings,
    fill: FillMode,
    source: Source,
    side: Side,
    end: usize,
}

// The cells of a sure row from a latch, in order, as its plan says, and the addresses of their words in `list`, from the place `words` on.
pub fn draw_cells(
    mem: &[u16],
    settings: CodeSettings,
    fill: FillMode,
    overlay: Option<OverlayHead>,
    back: &[u16; 75],
    count: SegmentCount,
    window: &[u16; 75],
    latch: u16,
    words: u32,
    cells: &mut [u32],
    list: &mut [u32],
) -> Reached
    requires drawable { Drawable settings.hidden (overlay_of settings.linear overlay window.now) (segments_of settings.linear count back.now) }
    requires words_bound { (words ≤ 1100) × (length cells.old ≡ 132) × (settings.linear ≡ true) }
    requires back_value { sure_row settings.hidden fill.flag mem.now (overlay_of settings.linear overlay window.now) (segments_of settings.linear count back.now) ≡ true }
    ensures column_value { (result.pen.column ≡ 132) × (result.words ≤ words + 400000) }
    ensures latch_value { noting words mem.now list.old (row_cells settings fill (overlay_of settings.linear overlay window.now) (segments_of settings.linear count back.now) (blank latch)) ≡ noted (given result.words (so_far result.pen cells.new)) list.new }
{
    let pen = pens::blank(latch);
    match overlay {
        None => {
            let stretch = Stretch {
                settings,
                fill,
                source: Source { kind: 1, window: 0 },
                side: Side::Whole,
                end: 132,
            };
            draw_stretch(mem, stretch, back, count, pen, words, cells, list)
        }
        Some(head) => draw_around(
            mem, settings, fill, head, back, count, window, pen, words, cells, list,
        ),
    }
}

// The background before a window, the window, and the background after it.
fn draw_around(
    mem: &[u16],
    settings: CodeSettings,
    fill: FillMode,
    head: OverlayHead,
    back: &[u16; 75],
    count: SegmentCount,
    window: &[u16; 75],
    pen: Pen,
    words: u32,
    cells: &mut [u32],
    list: &mut [u32],
) -> Reached
    requires drawable { Drawable settings.hidden (over head.number head.first head.end (segments_of settings.linear head.count window.now)) (segments_of settings.linear count back.now) }
    requires column_value { (pen.column ≡ 0) × (length cells.old ≡ 132) × (words ≤ 1100) × (settings.linear ≡ true) }
    requires back_value { sure_row settings.hidden fill.flag mem.now (over head.number head.first head.end (segments_of settings.linear head.count window.now)) (segments_of settings.linear count back.now) ≡ true }
    ensures column_value_2 { (result.pen.column ≡ 132) × (result.words ≤ words + 400000) }
    ensures cells_value { noting words mem.now list.old (row_cells settings fill (over head.number head.first head.end (segments_of settings.linear head.count window.now)) (segments_of settings.linear count back.now) (so_far pen cells.old)) ≡ noted (given result.words (so_far result.pen cells.new)) list.new }
{
    let before_it = Stretch {
        settings,
        fill,
        source: Source { kind: 1, window: 0 },
        side: Side::Before(head.first),
        end: head.first,
    };
    let before = draw_stretch(mem, before_it, back, count, pen, words, cells, list);
    let within = Stretch {
        settings,
        fill,
        source: Source {
            kind: 2,
            window: head.number,
        },
        side: Side::Whole,
        end: head.end,
    };
    let left = before.pen;
    let begun = pens::with_list(Pointer::NULL, left);
    let inside = draw_stretch(
        mem,
        within,
        window,
        head.count,
        begun,
        before.words,
        cells,
        list,
    );
    let in_use = before.pen.list;
    let right = inside.pen;
    let resumed = pens::using_list(in_use, right);
    let side = Side::After(head.first, head.end);
    let after_it = Stretch {
        settings,
        fill,
        source: Source { kind: 1, window: 0 },
        side,
        end: 132,
    };
    draw_stretch(
        mem,
        after_it,
        back,
        count,
        resumed,
        inside.words,
        cells,
        list,
    )
}

// The segments on a side, then the fill run up to the column `end`. With the fill flag there is no such run.
fn draw_stretch(
    mem: &[u16],
    stretch: Stretch,
    segments: &[u16; 75],
    count: SegmentCount,
    pen: Pen,
    words: u32,
    cells: &mut [u32],
    list: &mut [u32],
) -> Reached
    requires end_in_bounds { (stretch.end ≤ length cells.old) × (words ≤ 3000000000) × (stretch.settings.linear ≡ true) }
    requires segments_bound { pen.column + total stretch.settings.hidden (segments_on stretch.side stretch.settings.hidden 0 (segments_of stretch.settings.linear count segments.now)) ≤ stretch.end }
    requires segments_value { sure_all stretch.fill.flag mem.now (segments_of stretch.settings.linear count segments.now) ≡ true }
    requires segments_value_2 { stretch.fill.flag ≡ true → pen.column + total stretch.settings.hidden (segments_on stretch.side stretch.settings.hidden 0 (segments_of stretch.settings.linear count segments.now)) ≡ stretch.end }
    ensures column_value { (result.pen.column ≡ stretch.end) × (result.words ≤ words + 131000) }
    ensures cells_value { noting words mem.now list.old (segments_to stretch.settings stretch.fill stretch.source (segments_on stretch.side stretch.settings.hidden 0 (segments_of stretch.settings.linear count segments.now)) stretch.end (so_far pen cells.old)) ≡ noted (given result.words (so_far result.pen cells.new)) list.new }
{
    let begun = pens::anew(pen);
    let drawn = draw_side(mem, stretch, segments, count, begun, words, cells, list);
    let settings = CodeSettings {
        linear: true,
        hidden: stretch.settings.hidden,
        flag: stretch.settings.flag,
    };
    let fill = stretch.fill;
    let after = drawn.pen;
    fill_to(
        mem,
        settings,
        fill,
        stretch.end,
        after,
        drawn.words,
        cells,
        list,
    )
}

// The segments on a side, one after the other.
fn draw_side(
    mem: &[u16],
    stretch: Stretch,
    segments: &[u16; 75],
    count: SegmentCount,
    pen: Pen,
    words: u32,
    cells: &mut [u32],
    list: &mut [u32],
) -> Reached
    requires words_bound { (words ≤ 3000000000) × (stretch.settings.linear ≡ true) }
    requires segments_in_bounds { pen.column + total stretch.settings.hidden (segments_on stretch.side stretch.settings.hidden 0 (segments_of stretch.settings.linear count segments.now)) ≤ length cells.old }
    requires segments_value { sure_all stretch.fill.flag mem.now (segments_of stretch.settings.linear count segments.now) ≡ true }
    ensures column_value { (result.pen.column ≡ pen.column + total stretch.settings.hidden (segments_on stretch.side stretch.settings.hidden 0 (segments_of stretch.settings.linear count segments.now))) × (result.words ≤ words + 512 * count.number) }
    ensures cells_value { noting words mem.now list.old (each (segment stretch.settings stretch.fill stretch.source) (segments_on stretch.side stretch.settings.hidden 0 (segments_of stretch.settings.linear count segments.now)) (so_far pen cells.old)) ≡ noted (given result.words (so_far result.pen cells.new)) list.new }
{
    // field by field: copied whole, the settings would stay in one register and be taken apart at each code
    let settings = CodeSettings {
        linear: true,
        hidden: stretch.settings.hidden,
        flag: stretch.settings.flag,
    };
    let fill = stretch.fill;
    let source = stretch.source;
    let side = stretch.side;
    let n = count.number as usize;
    let mut current = pen;
    let mut read = words;
    let mut at = 0;
    for i in 0..n {
        let g = blocks::segment_at(true, count, segments, i);
        let w = layout::width(settings.hidden, g);
        let chosen = layout::on_side(side, at, w);
        let drawn = draw_chosen(
            mem, settings, fill, source, chosen, g, current, read, cells, list,
        );
        let after = drawn.pen;
        current = pens::anew(after);
        read = drawn.words;
        at += w;
    }
    Reached {
        pen: current,
        words: read,
    }
}

// One segment, where it is chosen.
fn draw_chosen(
    mem: &[u16],
    settings: CodeSettings,
    fill: FillMode,
    source: Source,
    chosen: bool,
    g: Segment,
    pen: Pen,
    words: u32,
    cells: &mut [u32],
    list: &mut [u32],
) -> Reached
    requires { (pen.column + (when chosen then width settings.hidden g else 0) ≤ length cells.old) × (words ≤ 4000000000) × (settings.linear ≡ true) × (sure_segment fill.flag mem.now g ≡ true) }
    ensures column_value { (result.pen.column ≡ pen.column + (when chosen then width settings.hidden g else 0)) × (result.words ≤ words + 512) }
    ensures cells_value { noting words mem.now list.old (when chosen then segment settings fill source g (so_far pen cells.old) else done (so_far pen cells.old)) ≡ noted (given result.words (so_far result.pen cells.new)) list.new }
{
    if chosen {
        draw_segment(mem, settings, fill, source, g, pen, words, cells, list)
    } else {
        Reached { pen, words }
    }
}

// One segment, from the pen's column on.
fn draw_segment(
    mem: &[u16],
    settings: CodeSettings,
    fill: FillMode,
    source: Source,
    g: Segment,
    pen: Pen,
    words: u32,
    cells: &mut [u32],
    list: &mut [u32],
) -> Reached
    requires { (pen.column + width settings.hidden g ≤ length cells.old) × (words ≤ 4000000000) × (settings.linear ≡ true) × (sure_segment fill.flag mem.now g ≡ true) }
    ensures column_value { (result.pen.column ≡ pen.column + width settings.hidden g) × (result.words ≤ words + 512) }
    ensures cells_value { noting words mem.now list.old (segment settings fill source g (so_far pen cells.old)) ≡ noted (given result.words (so_far result.pen cells.new)) list.new }
{
    let end = pen.column + layout::width(settings.hidden, g);
    let attributes = g.attributes;
    let begun = pens::with_list(attributes, pen);
    let room = Room { source, end };
    let drawn = draw_codes(mem, settings, room, g, begun, words, cells, list);
    let after = drawn.pen;
    fill_to(mem, settings, fill, end, after, drawn.words, cells, list)
}

// The codes of a segment, up to the column before which they stand.
fn draw_codes(
    mem: &[u16],
    settings: CodeSettings,
    room: Room,
    g: Segment,
    pen: Pen,
    words: u32,
    cells: &mut [u32],
    list: &mut [u32],
) -> Reached
    requires end_in_bounds { (room.end ≤ length cells.old) × (pen.column ≤ room.end) × (words ≤ 4000000000) × (settings.linear ≡ true) × (is_run true (length mem.now) g.codes.address ((code_count g + 1) / 2) ≡ true) }
    requires g_value { pen.list.present && not (eqb (code_count g) 0) ≡ true → is_run true (length mem.now) pen.list.next.address (code_count g) ≡ true }
    ensures column_le_end { (result.pen.column ≤ room.end) × (result.words ≤ words + 510) × (pen.list.present && not (eqb (code_count g) 0) ≡ false → result.pen.list ≡ pen.list) }
    ensures cells_value { noting words mem.now list.old (codes settings room.source room.end (code_count g) g.codes (so_far pen cells.old)) ≡ noted (given result.words (so_far result.pen cells.new)) list.new }
{
    let n = cells::code_count(g);
    let first = g.codes.address;
    if n == 0 {
        return Reached { pen, words };
    }
    if pen.list.present {
        noting::draw_listed(mem, settings, room, n, first, pen, words, cells, list)
    } else {
        noting::draw_plain(mem, settings, room, n, first, pen, words, cells, list)
    }
}

// A fill run up to the column `end`, whose word is there with bit 15 where it takes one.
fn fill_to(
    mem: &[u16],
    settings: CodeSettings,
    fill: FillMode,
    end: usize,
    pen: Pen,
    words: u32,
    cells: &mut [u32],
    list: &mut [u32],
) -> Reached
    requires end_in_bounds { (end ≤ length cells.old) × (pen.column ≤ end) × (words ≤ 4200000000) × (settings.linear ≡ true) }
    requires address_value { pen.column < end → fill.flag && pen.list.present ≡ true → stands mem.now pen.list.next.address ≡ true }
    ensures column_value { (result.pen.column ≡ end) × (result.words ≤ words + 1) }
    ensures cells_value { noting words mem.now list.old (fill_to settings fill end (so_far pen cells.old)) ≡ noted (given result.words (so_far result.pen cells.new)) list.new }
{
    if end <= pen.column {
        return Reached { pen, words };
    }
    if fill.flag & pen.list.present {
        let a = pen.list.next.address;
        noting::places::note(a, words as usize, list);
        let taken = pens::take_word(true, mem[(a / 2) as usize], pen);
        return Reached {
            pen: cells::fill::fill_run(fill, end, taken, cells),
            words: words + 1,
        };
    }
    Reached {
        pen: cells::fill::fill_run(fill, end, pen, cells),
        words,
    }
}
