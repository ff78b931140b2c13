#![tactic(auto)]
// What a row does to the latch, told without cells, where no fill run takes a word and every word is there.
ghost use Rattle.std.specs.Prelude.{◌≡◌};
ghost use Rattle.memory.specs.Word.{when◌then◌else◌};
ghost use Rattle.blocks.specs.RowBlock.{segments_of};
ghost use Rattle.layout.specs.Layout.{segments_on};
ghost use Rattle.layout.specs.Answers.{overlay_of};
ghost use Rattle.latch.specs.declared.LatchEffect.TheVariants.{Kept};
ghost use Rattle.latch.specs.Latch.{join, over_segment, over_segments, over_row, AsDrawn};

use blocks::{FillMode, Segment, SegmentCount};
use codes::CodeSettings;
use layout::{OverlayHead, Side};

mod segment; // the codes of a segment, and the words of its list

// What becomes of the latch: it is kept, or a word becomes it; or that is unclear, and the row has to be drawn.
#[derive(Clone, Copy)]
pub enum LatchEffect {
    Kept,
    Latched(u16),
    Unclear,
}

// The latch over a row, as its plan says: the background's segments in `back`, a window's in `window`.
pub fn row_latch(
    mem: &[u16],
    settings: CodeSettings,
    fill: FillMode,
    overlay: Option<OverlayHead>,
    back: &[u16; 75],
    count: SegmentCount,
    window: &[u16; 75],
) -> LatchEffect
    ensures value { result ≡ over_row settings mem.now fill (overlay_of settings.linear overlay window.now) (segments_of settings.linear count back.now) }
    ensures as_drawn { AsDrawn settings mem.now fill (overlay_of settings.linear overlay window.now) (segments_of settings.linear count back.now) result }
{
    if fill.flag {
        return LatchEffect::Unclear;
    }
    let none = LatchEffect::Kept;
    match overlay {
        None => side_latch(mem, settings, Side::Whole, back, count, none),
        Some(head) => {
            let side = Side::Before(head.first);
            let before = side_latch(mem, settings, side, back, count, none);
            let within = side_latch(mem, settings, Side::Whole, window, head.count, before);
            let side = Side::After(head.first, head.end);
            side_latch(mem, settings, side, back, count, within)
        }
    }
}

// The latch over what comes before, and then over the segments on a side.
fn side_latch(
    mem: &[u16],
    settings: CodeSettings,
    side: Side,
    segments: &[u16; 75],
    count: SegmentCount,
    before: LatchEffect,
) -> LatchEffect
    ensures { result ≡ join before (over_segments settings mem.now (segments_on side settings.hidden 0 (segments_of settings.linear count segments.now))) }
{
    let n = count.number as usize;
    let mut made = before;
    let mut at = 0;
    for i in 0..n {
        let g = blocks::segment_at(settings.linear, count, segments, i);
        let w = layout::width(settings.hidden, g);
        let chosen = layout::on_side(side, at, w);
        made = join(made, chosen_latch(mem, settings, chosen, g));
        at += w;
    }
    made
}

// The latch over one segment, where it is chosen.
fn chosen_latch(mem: &[u16], settings: CodeSettings, chosen: bool, g: Segment) -> LatchEffect
    ensures { result ≡ (when chosen then over_segment settings mem.now g else Kept) }
{
    if chosen {
        segment::segment_latch(mem, settings, g)
    } else {
        LatchEffect::Kept
    }
}

// The latch over one part of a row, and then over the next.
fn join(first: LatchEffect, second: LatchEffect) -> LatchEffect
    ensures { result ≡ join first second }
{
    match first {
        LatchEffect::Kept => second,
        LatchEffect::Unclear => LatchEffect::Unclear,
        LatchEffect::Latched(w) => match second {
            LatchEffect::Kept => LatchEffect::Latched(w),
            LatchEffect::Latched(v) => LatchEffect::Latched(v),
            LatchEffect::Unclear => LatchEffect::Unclear,
        },
    }
}
