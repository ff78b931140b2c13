// Is a row sure?
ghost use Rattle.std.specs.Prelude.{◌≡◌, true, ◌&&◌, ◌||◌, not, eqb};
ghost use Rattle.blocks.specs.RowBlock.{segments_of};
ghost use Rattle.layout.specs.Layout.{total};
ghost use Rattle.layout.specs.Answers.{overlay_of};
ghost use Rattle.sure.specs.Sure.{stands, sure_list, sure_segment, sure_all, sure_row};

use blocks::{FillMode, Segment, SegmentCount};
use codes::CodeSettings;
use layout::OverlayHead;

// Can no reading of the cells of a planned row be refused?
pub fn is_sure(
    mem: &[u16],
    settings: CodeSettings,
    fill: FillMode,
    overlay: Option<OverlayHead>,
    back: &[u16; 75],
    count: SegmentCount,
    window: &[u16; 75],
) -> bool
    ensures { result ≡ sure_row settings.hidden fill.flag mem.now (overlay_of true overlay window.now) (segments_of true count back.now) }
{
    match overlay {
        None => {
            are_sure(mem, fill.flag, back, count)
                & fills_row(settings.hidden, fill.flag, back, count)
        }
        Some(head) => {
            !fill.flag
                & are_sure(mem, fill.flag, back, count)
                & are_sure(mem, fill.flag, window, head.count)
        }
    }
}

// With the fill flag, do the segments of a row without a window leave no cell after them?
fn fills_row(hidden: bool, flag: bool, segments: &[u16; 75], count: SegmentCount) -> bool
    ensures { result ≡ not flag || eqb (total hidden (segments_of true count segments.now)) 132 }
{
    if !flag {
        return true;
    }
    let n = count.number as usize;
    let mut sum = 0;
    for i in 0..n {
        sum += layout::width(hidden, blocks::segment_at(true, count, segments, i));
    }
    sum == 132
}

// Is each segment sure?
fn are_sure(mem: &[u16], flag: bool, segments: &[u16; 75], count: SegmentCount) -> bool
    ensures { result ≡ sure_all flag mem.now (segments_of true count segments.now) }
{
    let n = count.number as usize;
    for i in 0..n {
        let g = blocks::segment_at(true, count, segments, i);
        if !is_sure_segment(mem, flag, g) {
            return false;
        }
    }
    true
}

fn is_sure_segment(mem: &[u16], flag: bool, g: Segment) -> bool
    ensures { result ≡ sure_segment flag mem.now g }
{
    let words = (cells::code_count(g) as usize + 1) / 2;
    if memory::is_run(mem, true, g.codes.address, words) {
        if g.attributes.address == 0 {
            true
        } else {
            is_sure_list(mem, flag, g)
        }
    } else {
        false
    }
}

// Are the words of a segment's list there that its codes can take; or, without codes, the one that its fill run takes, with bit 15?
fn is_sure_list(mem: &[u16], flag: bool, g: Segment) -> bool
    ensures { result ≡ sure_list flag mem.now g }
{
    let codes = cells::code_count(g);
    let a = g.attributes.address;
    if flag {
        (codes == 0) & does_stand(mem, a)
    } else {
        memory::is_run(mem, true, a, codes as usize)
    }
}

// Is the word at an address there, with bit 15?
fn does_stand(mem: &[u16], a: u32) -> bool
    ensures { result ≡ stands mem.now a }
{
    memory::word_at(mem, a).is_some_and(memory::bit_15)
}
