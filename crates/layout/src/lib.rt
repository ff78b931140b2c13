#![tactic(auto)]
// The segments of a row, from their words: widths, boundaries, and the side of a window that they are on.
ghost use Rattle.std.specs.Prelude.{◌≡◌};
ghost use Rattle.blocks.specs.RowBlock.{segments_of};
ghost use Rattle.layout.specs.Layout.{width, fits, boundary, covered, on_side};
ghost use Rattle.layout.specs.Answers.{measured};

use blocks::{Segment, SegmentCount};

pub mod overlay; // the window on a row

// The background segments of a row without a window; those drawn before a window, from its first column; those drawn after it,
// from its first column and the one after its last.
#[derive(Clone, Copy)]
pub enum Side {
    Whole,
    Before(usize),
    After(usize, usize),
}

// A window on a row but for its segments: its number, first column, the one after its last, and the count of segments.
#[derive(Clone, Copy)]
pub struct OverlayHead {
    pub number: u8,
    pub first: usize,
    pub end: usize,
    pub count: SegmentCount,
}

// Whether a row's segments all pass check 9, and the sum of their widths.
#[derive(Clone, Copy)]
pub struct Measure {
    pub fit: bool,
    pub width: usize,
}

// The width of a segment; `hidden` is Display Hidden.
pub fn width(hidden: bool, g: Segment) -> usize
    ensures { result ≡ width hidden g }
{
    if hidden & (g.codes.address != 0) {
        g.length as usize
    } else {
        g.visible as usize
    }
}

// Is a background segment from `s` of width `w` drawn on a side?
pub fn on_side(side: Side, s: usize, w: usize) -> bool
    ensures { result ≡ on_side side s w }
{
    match side {
        Side::Whole => true,
        Side::Before(first) => s < first,
        Side::After(first, end) => !(s < first) & !is_covered(first, end, s, w),
    }
}

// Does a window from `first` to before `end` cover the segment? Written without the sum `s + w`, which could wrap.
fn is_covered(first: usize, end: usize, s: usize, w: usize) -> bool
    ensures { result ≡ covered first end s w }
{
    if s <= end {
        (first <= s) & (w <= end - s)
    } else {
        false
    }
}

// Check 9 of one segment.
fn fits(g: Segment) -> bool
    ensures { result ≡ fits g }
{
    (g.codes.address == 0) | (g.visible <= g.length)
}

// Check 9 and the widths' sum of `count` segments.
pub fn measure_segments(
    linear: bool,
    hidden: bool,
    words: &[u16; 75],
    count: SegmentCount,
) -> Measure
    ensures { result ≡ measured hidden (segments_of linear count words.now) }
{
    let n = count.number as usize;
    let mut fit = true;
    let mut sum = 0;
    for i in 0..n {
        let g = blocks::segment_at(linear, count, words, i);
        fit &= fits(g);
        sum += width(hidden, g);
    }
    Measure { fit, width: sum }
}

// Is a place a boundary of `count` segments?
pub fn is_boundary(
    linear: bool,
    hidden: bool,
    words: &[u16; 75],
    count: SegmentCount,
    place: usize,
) -> bool
    ensures { result ≡ boundary hidden 0 (segments_of linear count words.now) place }
{
    let n = count.number as usize;
    let mut at = 0;
    for i in 0..n {
        if at == place {
            return true;
        }
        at += width(hidden, blocks::segment_at(linear, count, words, i));
    }
    at <= place
}
