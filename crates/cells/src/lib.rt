#![tactic(auto)]
// The cells of a row, drawn left to right.
ghost use Rattle.std.specs.Prelude.{◌≡◌, ◌+◌, ◌*◌, ◌≤◌, length};
ghost use Rattle.memory.specs.Word.{when◌then◌else◌};
ghost use Rattle.memory.specs.Reading.{done, each, run_from};
ghost use Rattle.blocks.specs.RowBlock.{segments_of};
ghost use Rattle.layout.specs.Layout.{width, total, over, segments_on};
ghost use Rattle.layout.specs.Answers.{overlay_of};
ghost use Rattle.codes.specs.Codes.{blank};
ghost use Rattle.cells.specs.Cells.{code_count, segment, segments_to, row_cells};
ghost use Rattle.codes.specs.Answers.{so_far, drawn};
ghost use Rattle.cells.specs.Answers.{finish, finished, DrawnTo, Drawable};

use blocks::{FillMode, Segment, SegmentCount};
use codes::{CodeSettings, Pen, Reached, Room, Source, pens};
use layout::{OverlayHead, Side};
use memory::{Fault, Pointer};

pub mod fill; // fill runs

// What the cells of a row came to: the latch, whether a word of this row became it, and the words read; or the refusal met.
#[derive(Clone, Copy)]
pub struct CellsDrawn {
    pub latch: u16,
    pub latched: bool,
    pub words: u32,
}

// A stretch of a row: what it is drawn by, the segments on a side, their source, and the column up to which the fill run after them goes.
#[derive(Clone, Copy)]
struct Stretch {
    settings: CodeSettings,
    fill: FillMode,
    source: Source,
    side: Side,
    end: usize,
}

// The cells of a row from a latch, in order, as its plan says: the background's segments in `back`, a window's in `window`.
pub fn draw_cells(
    mem: &[u16],
    settings: CodeSettings,
    fill: FillMode,
    overlay: Option<OverlayHead>,
    back: &[u16; 75],
    count: SegmentCount,
    window: &[u16; 75],
    latch: u16,
    words: u32,
    cells: &mut [u32],
) -> Result<CellsDrawn, Fault>
    requires drawable { Drawable settings.hidden (overlay_of settings.linear overlay window.now) (segments_of settings.linear count back.now) }
    requires words_bound { (words ≤ 1000) × (length cells.old ≡ 132) }
    ensures { finished result cells.new ≡ finish (run_from words mem.now (row_cells settings fill (overlay_of settings.linear overlay window.now) (segments_of settings.linear count back.now) (blank latch))) }
{
    let row = walk_cells(
        mem, settings, fill, overlay, back, count, window, latch, words, cells,
    )?;
    Ok(CellsDrawn {
        latch: row.pen.latch,
        latched: row.pen.latched,
        words: row.words,
    })
}

// How many codes of a segment are examined.
pub fn code_count(g: Segment) -> u32
    ensures { (result ≡ code_count g) × (result ≤ 255) }
{
    if g.codes.address == 0 {
        0
    } else {
        g.length as u32
    }
}

// The walk from left to right.
fn walk_cells(
    mem: &[u16],
    settings: CodeSettings,
    fill: FillMode,
    overlay: Option<OverlayHead>,
    back: &[u16; 75],
    count: SegmentCount,
    window: &[u16; 75],
    latch: u16,
    words: u32,
    cells: &mut [u32],
) -> Result<Reached, Fault>
    requires drawable { Drawable settings.hidden (overlay_of settings.linear overlay window.now) (segments_of settings.linear count back.now) }
    requires words_bound { (words ≤ 1000) × (length cells.old ≡ 132) }
    ensures reached { DrawnTo 132 (words + 400000) result }
    ensures cells_after { drawn result cells.new ≡ run_from words mem.now (row_cells settings fill (overlay_of settings.linear overlay window.now) (segments_of settings.linear count back.now) (blank latch)) }
{
    let pen = pens::blank(latch);
    match overlay {
        None => {
            let stretch = Stretch {
                settings,
                fill,
                source: Source { kind: 1, window: 0 },
                side: Side::Whole,
                end: 132,
            };
            draw_run(mem, cells, stretch, back, count, pen, words)
        }
        Some(head) => draw_around(
            mem, settings, fill, head, back, count, window, pen, words, cells,
        ),
    }
}

// The background before a window, the window, and the background after it.
fn draw_around(
    mem: &[u16],
    settings: CodeSettings,
    fill: FillMode,
    head: OverlayHead,
    back: &[u16; 75],
    count: SegmentCount,
    window: &[u16; 75],
    pen: Pen,
    words: u32,
    cells: &mut [u32],
) -> Result<Reached, Fault>
    requires drawable { Drawable settings.hidden (over head.number head.first head.end (segments_of settings.linear head.count window.now)) (segments_of settings.linear count back.now) }
    requires column_value { (pen.column ≡ 0) × (length cells.old ≡ 132) × (words ≤ 1000) }
    ensures reached { DrawnTo 132 (words + 400000) result }
    ensures cells_after { drawn result cells.new ≡ run_from words mem.now (row_cells settings fill (over head.number head.first head.end (segments_of settings.linear head.count window.now)) (segments_of settings.linear count back.now) (so_far pen cells.old)) }
{
    let before_it = Stretch {
        settings,
        fill,
        source: Source { kind: 1, window: 0 },
        side: Side::Before(head.first),
        end: head.first,
    };
    let before = draw_run(mem, cells, before_it, back, count, pen, words)?;
    let within = Stretch {
        settings,
        fill,
        source: Source {
            kind: 2,
            window: head.number,
        },
        side: Side::Whole,
        end: head.end,
    };
    let left = before.pen;
    let begun = pens::with_list(Pointer::NULL, left);
    let inside = draw_run(mem, cells, within, window, head.count, begun, before.words)?;
    let in_use = before.pen.list;
    let right = inside.pen;
    let resumed = pens::using_list(in_use, right);
    let side = Side::After(head.first, head.end);
    let after_it = Stretch {
        settings,
        fill,
        source: Source { kind: 1, window: 0 },
        side,
        end: 132,
    };
    draw_run(mem, cells, after_it, back, count, resumed, inside.words)
}

// The segments on a side, then the fill run up to the column `end`.
fn draw_run(
    mem: &[u16],
    cells: &mut [u32],
    stretch: Stretch,
    segments: &[u16; 75],
    count: SegmentCount,
    pen: Pen,
    words: u32,
) -> Result<Reached, Fault>
    requires end_in_bounds { (stretch.end ≤ length cells.old) × (words ≤ 3000000000) }
    requires segments_bound { pen.column + total stretch.settings.hidden (segments_on stretch.side stretch.settings.hidden 0 (segments_of stretch.settings.linear count segments.now)) ≤ stretch.end }
    ensures reached { DrawnTo stretch.end (words + 131000) result }
    ensures cells_after { drawn result cells.new ≡ run_from words mem.now (segments_to stretch.settings stretch.fill stretch.source (segments_on stretch.side stretch.settings.hidden 0 (segments_of stretch.settings.linear count segments.now)) stretch.end (so_far pen cells.old)) }
{
    let begun = pens::anew(pen);
    let drawn = draw_side(mem, stretch, segments, count, begun, words, cells)?;
    let settings = CodeSettings {
        linear: stretch.settings.linear,
        hidden: stretch.settings.hidden,
        flag: stretch.settings.flag,
    };
    let fill = stretch.fill;
    let after = drawn.pen;
    fill::fill_to(mem, settings, fill, stretch.end, after, drawn.words, cells)
}

// The segments on a side, one after the other.
fn draw_side(
    mem: &[u16],
    stretch: Stretch,
    segments: &[u16; 75],
    count: SegmentCount,
    pen: Pen,
    words: u32,
    cells: &mut [u32],
) -> Result<Reached, Fault>
    requires words_bound { words ≤ 3000000000 }
    requires segments_in_bounds { pen.column + total stretch.settings.hidden (segments_on stretch.side stretch.settings.hidden 0 (segments_of stretch.settings.linear count segments.now)) ≤ length cells.old }
    ensures reached { DrawnTo (pen.column + total stretch.settings.hidden (segments_on stretch.side stretch.settings.hidden 0 (segments_of stretch.settings.linear count segments.now))) (words + 512 * count.number) result }
    ensures cells_after { drawn result cells.new ≡ run_from words mem.now (each (segment stretch.settings stretch.fill stretch.source) (segments_on stretch.side stretch.settings.hidden 0 (segments_of stretch.settings.linear count segments.now)) (so_far pen cells.old)) }
{
    // field by field: copied whole, the settings would stay in one register and be taken apart at each code
    let settings = CodeSettings {
        linear: stretch.settings.linear,
        hidden: stretch.settings.hidden,
        flag: stretch.settings.flag,
    };
    let fill = stretch.fill;
    let source = stretch.source;
    let side = stretch.side;
    let n = count.number as usize;
    let mut current = pen;
    let mut read = words;
    let mut at = 0;
    for i in 0..n {
        let g = blocks::segment_at(settings.linear, count, segments, i);
        let w = layout::width(settings.hidden, g);
        let chosen = layout::on_side(side, at, w);
        let drawn = draw_chosen(mem, settings, fill, source, chosen, g, current, read, cells)?;
        let after = drawn.pen;
        current = pens::anew(after);
        read = drawn.words;
        at += w;
    }
    Ok(Reached {
        pen: current,
        words: read,
    })
}

// One segment, where it is chosen.
fn draw_chosen(
    mem: &[u16],
    settings: CodeSettings,
    fill: FillMode,
    source: Source,
    chosen: bool,
    g: Segment,
    pen: Pen,
    words: u32,
    cells: &mut [u32],
) -> Result<Reached, Fault>
    requires { (pen.column + (when chosen then width settings.hidden g else 0) ≤ length cells.old) × (words ≤ 4000000000) }
    ensures reached { DrawnTo (pen.column + (when chosen then width settings.hidden g else 0)) (words + 512) result }
    ensures cells_after { drawn result cells.new ≡ run_from words mem.now (when chosen then segment settings fill source g (so_far pen cells.old) else done (so_far pen cells.old)) }
{
    if chosen {
        draw_segment(mem, settings, fill, source, g, pen, words, cells)
    } else {
        Ok(Reached { pen, words })
    }
}

// One segment, from the pen's column on.
fn draw_segment(
    mem: &[u16],
    settings: CodeSettings,
    fill: FillMode,
    source: Source,
    g: Segment,
    pen: Pen,
    words: u32,
    cells: &mut [u32],
) -> Result<Reached, Fault>
    requires { (pen.column + width settings.hidden g ≤ length cells.old) × (words ≤ 4000000000) }
    ensures reached { DrawnTo (pen.column + width settings.hidden g) (words + 512) result }
    ensures cells_after { drawn result cells.new ≡ run_from words mem.now (segment settings fill source g (so_far pen cells.old)) }
{
    let end = pen.column + layout::width(settings.hidden, g);
    let attributes = g.attributes;
    let begun = pens::with_list(attributes, pen);
    let room = Room { source, end };
    let first = g.codes;
    let drawn = runs::draw_codes(
        mem,
        settings,
        room,
        code_count(g),
        first,
        begun,
        words,
        cells,
    )?;
    let after = drawn.pen;
    fill::fill_to(mem, settings, fill, end, after, drawn.words, cells)
}
