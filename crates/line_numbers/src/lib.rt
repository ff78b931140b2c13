#![tactic(auto)]
// A line of the panel as seven numbers, and which frames a line can be asked of.
ghost use Rattle.std.specs.Prelude.{◌≡◌};
ghost use Rattle.line_numbers.specs.LineNumbers.{is_height, are_heights, line_asked, spot_at, background_spot, still_spot, line_numbers};
ghost use Rattle.line_numbers.specs.Narrow.{NarrowBackground, NarrowPlaced, NarrowLine};

use panel::{Background, Line, Place};

// What glides or stands still on a line as three numbers: its kind, its index, its scan line.
#[derive(Clone, Copy)]
pub struct Spot {
    pub kind: u32,
    pub index: u32,
    pub line: u32,
}

// Whether a line can be asked of a frame: its shift within 31 lines, rows of 1 to 32 lines, no more rows of the frame than there are.
#[tactic(auto, unfolding(crate::specs::LineNumbers::line_asked))]
pub fn is_asked(shift: i32, above: u32, heights: &[u32], rows: usize) -> bool
    ensures { result ≡ line_asked shift above heights.now rows }
{
    let near = (panel::lines_of(shift) <= 31) & (above <= 32);
    let few = (rows <= heights.len()) & (heights.len() <= 4294967295);
    near & few & are_heights(heights)
}

fn are_heights(heights: &[u32]) -> bool
    ensures { result ≡ are_heights heights.now }
{
    heights.iter().all(|h| is_height(*h))
}

fn is_height(h: u32) -> bool
    ensures { result ≡ is_height h }
{
    matches!(h, 1..=32)
}

// A line whose numbers fit 32 bits, into seven places.
#[tactic(auto, unfolding(crate::specs::LineNumbers::line_numbers))]
pub fn write_line(l: Line, into: &mut [u32; 7])
    requires { NarrowLine l }
    ensures { into.new ≡ line_numbers l }
{
    let b = background_spot(l.background);
    let s = still_spot(l.still);
    *into = [
        b.kind,
        b.index,
        b.line,
        s.kind,
        s.index,
        s.line,
        l.lines as u32,
    ];
}

fn background_spot(background: Background) -> Spot
    requires { NarrowBackground background }
    ensures { result ≡ background_spot background }
{
    match background {
        Background::Nothing => spot_at(0, 0, 0),
        Background::Row(p) => spot_at(1, p.index as u32, p.line as u32),
        Background::Above(p) => spot_at(2, p.index as u32, p.line as u32),
    }
}

fn still_spot(still: Option<Place>) -> Spot
    requires { NarrowPlaced still }
    ensures { result ≡ still_spot still }
{
    match still {
        None => spot_at(0, 0, 0),
        Some(p) => spot_at(1, p.index as u32, p.line as u32),
    }
}

fn spot_at(kind: u32, index: u32, line: u32) -> Spot
    ensures { result ≡ spot_at kind index line }
{
    Spot { kind, index, line }
}
