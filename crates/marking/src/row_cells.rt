// The cells of a row, walked: each code word, attribute word and fill word is marked as it is met. The walk goes from left to right
// as drawing does, with the pen alone: no word that is read depends on the cells so far, nor on their source.
ghost use Rattle.std.specs.Prelude.{◌≡◌, List, ℕ, ◌+◌, ◌*◌, ◌≤◌, max, Some};
ghost use Rattle.memory.specs.Word.{when◌then◌else◌};
ghost use Rattle.memory.specs.Reading.{done, each};
ghost use Rattle.layout.specs.Layout.{segments_on};
ghost use Rattle.layout.specs.Answers.{overlay_of};
ghost use Rattle.codes.specs.declared.Source.{Source};
ghost use Rattle.codes.specs.Codes.{blank, drawing, character, examine, word_codes, codes};
ghost use Rattle.cells.specs.Cells.{unlatched, fill_by_word, fill_to, segment, segments_to, row_cells};
ghost use Rattle.marking.specs.Answers.{Kept, segments_in, Follows, UpTo, Narrow};

use crate::marked::Marked;
use blocks::{FillMode, Segment, SegmentCount};
use codes::{CodeSettings, Pen, attribute, pens};
use layout::{OverlayHead, Side};
use memory::{Fault, Pointer};

// The settings that the cells of a row are read by: those of codes, and the fill mode.
#[derive(Clone, Copy)]
pub struct CellSettings {
    pub codes: CodeSettings,
    pub fill: FillMode,
}

// The segments of a block: their words, and how many there are.
#[derive(Clone, Copy)]
pub struct RowSegments<'a> {
    pub words: &'a [u16; 75],
    pub count: SegmentCount,
}

impl Marked<'_> {
    // The cells of a row from a latch, as its plan says: the background's segments in `back`, a window's in `window`.
    pub fn walk_cells(
        &mut self,
        settings: CellSettings,
        overlay: Option<OverlayHead>,
        back: RowSegments,
        window: &[u16; 75],
        latch: u16,
    ) -> Result<Pen, Fault>
        requires { Narrow «overlay» }
        ensures kept { Kept self.old self.new }
        ensures follows { Follows result self.old self.new (blank latch).pen (row_cells settings.codes settings.fill (overlay_of settings.codes.linear overlay window.now) (segments_in settings.codes.linear back.entry)) }
    {
        let pen = pens::blank(latch);
        match overlay {
            None => self.walk_run(settings, Side::Whole, back, 132, pen),
            Some(head) => self.walk_around(settings, head, back, window, pen),
        }
    }

    // The background before a window, the window, and the background after it.
    fn walk_around(
        &mut self,
        settings: CellSettings,
        head: OverlayHead,
        back: RowSegments,
        window: &[u16; 75],
        pen: Pen,
    ) -> Result<Pen, Fault>
        requires { (pen.column ≤ 0) × Narrow (Some head) }
        ensures kept { Kept self.old self.new }
        ensures follows { Follows result self.old self.new pen (row_cells settings.codes settings.fill (overlay_of settings.codes.linear (Some head) window.now) (segments_in settings.codes.linear back.entry)) }
    {
        let first = head.first;
        let end = head.end;
        let side = Side::Before(first);
        let before = self.walk_run(settings, side, back, first, pen)?;
        let begun = pens::with_list(Pointer::NULL, before);
        let inside = RowSegments {
            words: window,
            count: head.count,
        };
        let after = self.walk_run(settings, Side::Whole, inside, end, begun)?;
        let resumed = pens::using_list(before.list, after);
        let rest = Side::After(first, end);
        self.walk_run(settings, rest, back, 132, resumed)
    }

    // The segments on a side, then the fill run up to the column `end`.
    fn walk_run(
        &mut self,
        settings: CellSettings,
        side: Side,
        segments: RowSegments,
        end: usize,
        pen: Pen,
    ) -> Result<Pen, Fault>
        requires { (pen.column ≤ 1000000) × (end ≤ 132) }
        ensures kept { Kept self.old self.new }
        ensures up_to { UpTo (pen.column + 100000) result }
        ensures follows { (source : Source) → Follows result self.old self.new pen (segments_to settings.codes settings.fill source (segments_on side settings.codes.hidden 0 (segments_in settings.codes.linear segments.entry)) end) }
    {
        let after = self.walk_side(settings, side, segments, pen)?;
        self.walk_fill(settings, end, after)
    }

    // The segments on a side, one after the other.
    fn walk_side(
        &mut self,
        settings: CellSettings,
        side: Side,
        segments: RowSegments,
        pen: Pen,
    ) -> Result<Pen, Fault>
        requires { pen.column ≤ 1000000 }
        ensures kept { Kept self.old self.new }
        ensures up_to { UpTo (pen.column + 255 * segments.entry.count.number) result }
        ensures follows { (source : Source) → Follows result self.old self.new pen (each (segment settings.codes settings.fill source) (segments_on side settings.codes.hidden 0 (segments_in settings.codes.linear segments.entry))) }
    {
        let mut current = pen;
        let mut at = 0;
        for i in 0..segments.count.number as usize {
            let g = blocks::segment_at(settings.codes.linear, segments.count, segments.words, i);
            let w = layout::width(settings.codes.hidden, g);
            let chosen = layout::on_side(side, at, w);
            current = self.walk_chosen(settings, chosen, g, current)?;
            at += w;
        }
        Ok(current)
    }

    // One segment, where it is chosen.
    #[tactic(auto, unfolding(converter::specs::Walk::walk))]
    fn walk_chosen(
        &mut self,
        settings: CellSettings,
        chosen: bool,
        g: Segment,
        pen: Pen,
    ) -> Result<Pen, Fault>
        requires { pen.column ≤ 2000000 }
        ensures kept { Kept self.old self.new }
        ensures up_to { UpTo (pen.column + 255) result }
        ensures follows { (source : Source) → Follows result self.old self.new pen (λ d. when chosen then segment settings.codes settings.fill source g d else done d) }
    {
        if chosen {
            self.walk_segment(settings, g, pen)
        } else {
            Ok(pen)
        }
    }

    // One segment, from the pen's column on: its codes, then its fill run.
    fn walk_segment(&mut self, settings: CellSettings, g: Segment, pen: Pen) -> Result<Pen, Fault>
        requires { pen.column ≤ 2000000 }
        ensures kept { Kept self.old self.new }
        ensures up_to { UpTo (pen.column + 255) result }
        ensures follows { (source : Source) → Follows result self.old self.new pen (segment settings.codes settings.fill source g) }
    {
        let end = pen.column + layout::width(settings.codes.hidden, g);
        let begun = pens::with_list(g.attributes, pen);
        let count = cells::code_count(g);
        let after = self.walk_codes(settings.codes, end, count, g.codes, begun)?;
        self.walk_fill(settings, end, after)
    }

    // The codes of a segment, two to a word.
    fn walk_codes(
        &mut self,
        settings: CodeSettings,
        end: usize,
        count: u32,
        p: Pointer,
        pen: Pen,
    ) -> Result<Pen, Fault>
        ensures kept { Kept self.old self.new }
        ensures up_to { UpTo (max end pen.column) result }
        ensures follows { (source : Source) → Follows result self.old self.new pen (codes settings source end count p) }
    {
        let mut at = p;
        let mut current = pen;
        for i in 0..count.div_ceil(2) {
            let w = self.mark_word(0, at, 3)?;
            let n = (count - 2 * i).min(2);
            current = self.walk_word(settings, end, n, w, current)?;
            at = memory::onward(settings.linear, at);
        }
        Ok(current)
    }

    // The one or two codes of a word, the high byte first.
    fn walk_word(
        &mut self,
        settings: CodeSettings,
        end: usize,
        n: u32,
        w: u16,
        pen: Pen,
    ) -> Result<Pen, Fault>
        requires { (1 ≤ n) × (n ≤ 2) }
        ensures kept { Kept self.old self.new }
        ensures up_to { UpTo (max end pen.column) result }
        ensures follows { (source : Source) → Follows result self.old self.new pen (word_codes settings source end n w) }
    {
        let after = self.walk_code(settings, end, memory::high_byte(w), pen)?;
        if n < 2 {
            Ok(after)
        } else {
            self.walk_code(settings, end, memory::low_byte(w), after)
        }
    }

    // One code: its attribute word, where it takes one.
    fn walk_code(
        &mut self,
        settings: CodeSettings,
        end: usize,
        code: u8,
        pen: Pen,
    ) -> Result<Pen, Fault>
        ensures kept { Kept self.old self.new }
        ensures up_to { UpTo (max end pen.column) result }
        ensures follows { (source : Source) → Follows result self.old self.new pen (examine settings source end code) }
    {
        if attribute::invokes(settings.flag, code) & pen.list.present {
            let next = pen.list.next;
            let w = self.mark_word(0, next, 3)?;
            let taken = pens::take_word(settings.linear, w, pen);
            Ok(past_character(settings.hidden, end, w, taken))
        } else {
            Ok(past_character(settings.hidden, end, pen.latch, pen))
        }
    }

    // A fill run up to the column `end`: its fill word, where it takes one.
    fn walk_fill(&mut self, settings: CellSettings, end: usize, pen: Pen) -> Result<Pen, Fault>
        ensures kept { Kept self.old self.new }
        ensures by_index { (top : ℕ) → end ≤ top → pen.column ≤ top → UpTo top result }
        ensures follows { Follows result self.old self.new pen (fill_to settings.codes settings.fill end) }
    {
        if end <= pen.column {
            return Ok(pen);
        }
        if settings.fill.flag & pen.list.present {
            self.walk_fill_word(settings, end, pen)
        } else {
            Ok(pens::moved_to(end, pen))
        }
    }

    // A fill run that takes a word of the list in use first.
    fn walk_fill_word(&mut self, settings: CellSettings, end: usize, pen: Pen) -> Result<Pen, Fault>
        requires { pen.column ≤ end }
        ensures kept { Kept self.old self.new }
        ensures up_to { UpTo end result }
        ensures follows { Follows result self.old self.new pen (fill_by_word settings.codes settings.fill end) }
    {
        let next = pen.list.next;
        let w = self.mark_word(0, next, 3)?;
        if memory::bit_15(w) {
            let taken = pens::take_word(settings.codes.linear, w, pen);
            Ok(pens::moved_to(end, taken))
        } else {
            Err(unlatched(next))
        }
    }
}

// The pen past a character, which may be ignored or have no room.
fn past_character(hidden: bool, end: usize, attribute: u16, pen: Pen) -> Pen
    ensures column { result.column ≤ max end pen.column }
    ensures value { (source : Source) (code : ℕ) (cs : List ℕ) → result ≡ (character hidden source end attribute code (drawing pen cs)).pen }
{
    let column = pen.column;
    if attribute::is_shown(hidden, attribute) & (column < end) {
        pens::moved_to(column + 1, pen)
    } else {
        pen
    }
}

// Refusal 13: the attribute pointer in use is to blame.
fn unlatched(p: Pointer) -> Fault
    ensures { result ≡ unlatched p }
{
    Fault {
        number: 13,
        address: p.address,
        from: p.from,
    }
}
