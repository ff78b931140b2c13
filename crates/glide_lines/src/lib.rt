#![tactic(auto)]
// The lines of the glide program's output, each put at the start of a buffer or after the first bytes of it.
ghost use Rattle.std.specs.Prelude.{◌≡◌, ◌++◌, map, ◌+◌, ◌≤◌, nat_abs, length, take};
ghost use Rattle.lines.specs.Lines.{text, decimal, Line};
ghost use Rattle.glide_lines.specs.GlideLines.{sign, way_text, frame_line, part_text, gliding_text, window_text, stretch_line, character, character_line, stretch_text, end_frames};

use panel::Columns;
use scroll::Scroll;
use settings::{PointerWords, Settings};

// Scan lines of a row: which row, from which of its lines on, of how many; its row attributes.
#[derive(Clone, Copy)]
pub struct RowPart {
    pub index: u64,
    pub line: u64,
    pub height: u64,
    pub attributes: u32,
}

// What glides on a stretch: scan lines of a row of the frame, of a row below or of the row above, or nothing.
#[derive(Clone, Copy)]
pub enum Gliding {
    Nothing,
    Row(RowPart),
    Below(RowPart),
    Above(RowPart),
}

// A stretch: its first and last line, what glides there, what stands still there, and the columns of the window on the latter.
#[derive(Clone, Copy)]
pub struct Stretch {
    pub first: u64,
    pub last: u64,
    pub gliding: Gliding,
    pub still: RowPart,
    pub columns: Columns,
}

// The line of a frame: its number, its shift, the hard top and the start latch.
pub fn frame_line(
    number: u64,
    scroll: Scroll,
    top: PointerWords,
    latch: u16,
    out: &mut [u8; 2048],
) -> usize
    ensures { Line (frame_line number scroll top latch) result out.new }
{
    let mut at = lines::put_number(out, 0, b"frame ", number);
    at = put_shift(out, at, scroll.shift);
    at = lines::put_number(out, at, b" phase ", scroll.phase as u64);
    at = put_way(out, at, scroll.direction);
    at = lines::put_hex(out, at, b" top ", 4, top.first as u32);
    at = lines::put_hex(out, at, b" ", 4, top.second as u32);
    at = lines::put_hex(out, at, b" latch ", 4, latch as u32);
    lines::put_end(out, at)
}

// The lines of a stretch: its own, its shown columns as characters, and their cells.
pub fn stretch_lines(
    settings: Settings,
    stretch: Stretch,
    cells: &[u32; 132],
    out: &mut [u8; 2048],
) -> usize
    ensures { Line (stretch_text settings stretch cells.now) result out.new }
{
    let shown = &cells[..lines::cells_shown(settings)];
    let mut at = put_stretch(out, stretch);
    at = put_characters(out, at, shown);
    lines::put_cells(out, at, shown)
}

// The last line of an output: how many frames it has.
pub fn end_frames(frames: u64, out: &mut [u8; 2048]) -> usize
    ensures { Line (end_frames frames) result out.new }
{
    let at = lines::put_number(out, 0, b"end frames ", frames);
    lines::put_end(out, at)
}

// The shift of a frame.
fn put_shift(out: &mut [u8], at: usize, shift: i32) -> usize
    requires { at + 28 ≤ length out.old }
    ensures { (result ≤ at + 28) × (take result out.new ≡ take at out.old ++ text " shift " ++ sign shift ++ decimal (nat_abs shift)) }
{
    let moved = panel::lines_of(shift);
    if shift < 0 {
        lines::put_number(out, at, b" shift -", moved)
    } else {
        lines::put_number(out, at, b" shift ", moved)
    }
}

// The direction of a scroll.
fn put_way(out: &mut [u8], at: usize, direction: u32) -> usize
    requires { at + 5 ≤ length out.old }
    ensures { (result ≤ at + 5) × (take result out.new ≡ take at out.old ++ way_text direction) }
{
    if direction == 1 {
        lines::put(out, at, b" up")
    } else {
        lines::put(out, at, b" down")
    }
}

// The first line of a stretch.
fn put_stretch(out: &mut [u8; 2048], s: Stretch) -> usize
    ensures { (result ≤ 275) × (take result out.new ≡ stretch_line s) }
{
    let mut at = lines::put_number(out, 0, b"lines ", s.first);
    at = lines::put_number(out, at, b" to ", s.last);
    at = put_gliding(out, at, s.gliding);
    at = put_part(out, at, b" still ", s.still);
    at = put_window(out, at, s.columns);
    lines::put(out, at, b"\n")
}

// What glides on a stretch.
fn put_gliding(out: &mut [u8], at: usize, gliding: Gliding) -> usize
    requires { at + 86 ≤ length out.old }
    ensures { (result ≤ at + 86) × (take result out.new ≡ take at out.old ++ text " " ++ gliding_text gliding) }
{
    match gliding {
        Gliding::Nothing => lines::put(out, at, b" none"),
        Gliding::Row(part) => put_part(out, at, b" row ", part),
        Gliding::Below(part) => put_part(out, at, b" below ", part),
        Gliding::Above(part) => put_part(out, at, b" above ", part),
    }
}

// `name`, and scan lines of a row.
fn put_part(out: &mut [u8], at: usize, name: &[u8], part: RowPart) -> usize
    requires { at + length name.now + 79 ≤ length out.old }
    ensures { (result ≤ at + length name.now + 79) × (take result out.new ≡ take at out.old ++ name.now ++ part_text part) }
{
    let mut end = lines::put_number(out, at, name, part.index);
    end = lines::put_number(out, end, b" from ", part.line);
    end = lines::put_number(out, end, b" of ", part.height);
    lines::put_hex(out, end, b" attr ", 3, part.attributes)
}

// The columns of a window, where there is one.
fn put_window(out: &mut [u8], at: usize, columns: Columns) -> usize
    requires { at + 52 ≤ length out.old }
    ensures { (result ≤ at + 52) × (take result out.new ≡ take at out.old ++ window_text columns) }
{
    if columns.first <= columns.last {
        let end = lines::put_number(out, at, b" window ", columns.first as u64);
        lines::put_number(out, end, b" to ", columns.last as u64)
    } else {
        at
    }
}

// Cells as characters.
fn put_characters(out: &mut [u8], at: usize, cells: &[u32]) -> usize
    requires { at + length cells.now + 3 ≤ length out.old }
    ensures { (result ≡ at + length cells.now + 3) × (take result out.new ≡ take at out.old ++ character_line cells.now) }
{
    let start = lines::put(out, at, b"|");
    for (i, &cell) in cells.iter().enumerate() {
        out[start + i] = character_of(cell);
    }
    lines::put(out, start + cells.len(), b"|\n")
}

// A cell as a character.
fn character_of(cell: u32) -> u8
    ensures { result ≡ character cell }
{
    let code = (cell % 128) as u8;
    if cell / 8388608 % 2 == 1 {
        b' '
    } else if (0x20 <= code) & (code <= 0x7e) {
        code
    } else {
        b'?'
    }
}
