#![tactic(auto)]
// The lines of the draw program's output, each put at the start of a buffer; the answer is the line's length.
ghost use Rattle.std.specs.Prelude.{◌≡◌, ◌++◌, ◌+◌, ◌≤◌, ◌<◌, List, ℕ, min, length, take, drop};
ghost use Rattle.settings.specs.Good.{shown_columns};
ghost use Rattle.lines.specs.Pieces.{Next};
ghost use Rattle.lines.specs.Lines.{text, digit as Lines·digit, digits, hex, fewest, decimal, Line, row_line, cell_line, shown_cells, end_line, origin, refusal_line, script_line};

use memory::Refusal;
use row::DrawnRow;
use settings::Settings;

// `count` bytes of a text, and what comes after them.
#[derive(Clone, Copy)]
pub struct Piece<T> {
    pub count: usize,
    pub after: T,
}

// A text that comes in pieces, each at the start of a buffer; what it is a text of is lent to each call.
pub trait Pieces: Copy {
    type Of;

    // What is still to come.
    ghost to_come: { Self.Of → Self → List ℕ };

    // A bound on the calls that it takes to the text's end.
    ghost calls: { Self → ℕ };

    // The next piece, or that the text is at its end.
    fn next(self, of: &Self::Of, out: &mut [u8; 2048]) -> Option<Piece<Self>>
        ensures { Next (to_come of.now) calls self result out.new };
}

// The lines of a row: one with its number, lines, row attributes and words, and one with its shown cells.
pub fn row_lines(
    settings: Settings,
    row: DrawnRow,
    cells: &[u32; 132],
    out: &mut [u8; 2048],
) -> usize
    ensures { Line (row_line row ++ cell_line (shown_cells settings cells.now)) result out.new }
{
    let at = put_row(out, row);
    put_cells(out, at, &cells[..cells_shown(settings)])
}

// The last line of a frame: its rows and words.
#[tactic(auto, unfolding(crate::specs::Lines::end_line))]
pub fn end_line(rows: u64, words: u64, out: &mut [u8; 2048]) -> usize
    ensures { Line (end_line rows words) result out.new }
{
    let mut at = put_number(out, 0, b"end rows ", rows);
    at = put_number(out, at, b" words ", words);
    put_end(out, at)
}

// The line of a refusal.
#[tactic(auto, unfolding(crate::specs::Lines::refusal_line))]
pub fn refusal_line(refusal: Refusal, out: &mut [u8; 2048]) -> usize
    ensures { Line (refusal_line refusal) result out.new }
{
    let mut at = put_number(out, 0, b"refused ", refusal.number as u64);
    at = put_number(out, at, b" row ", refusal.row as u64);
    at = put_hex(out, at, b" at ", 6, refusal.address);
    at = put_origin(out, at, refusal);
    put_end(out, at)
}

// The line of a refused script.
#[tactic(auto, unfolding(crate::specs::Lines::script_line))]
pub fn script_line(offset: u64, out: &mut [u8; 2048]) -> usize
    ensures { Line (script_line offset) result out.new }
{
    let at = put_number(out, 0, b"refused script at ", offset);
    put_end(out, at)
}

// `text` after the first `at` bytes of `out`.
pub fn put(out: &mut [u8], at: usize, text: &[u8]) -> usize
    requires { at + length text.now ≤ length out.old }
    ensures { (result ≡ at + length text.now) × (take result out.new ≡ take at out.old ++ text.now) }
{
    let end = at + text.len();
    out[at..end].copy_from_slice(text);
    end
}

// The end of a line.
pub fn put_end(out: &mut [u8], at: usize) -> usize
    requires { at + 1 ≤ length out.old }
    ensures { Line (take at out.old ++ text "\n") result out.new }
{
    put(out, at, b"\n")
}

// Where the pointer in use begins, of refusal 7.
fn put_origin(out: &mut [u8], at: usize, refusal: Refusal) -> usize
    requires { at + 12 ≤ length out.old }
    ensures { (result ≤ at + 12) × (take result out.new ≡ take at out.old ++ origin refusal) }
{
    if refusal.number == 7 {
        put_hex(out, at, b" from ", 6, refusal.from)
    } else {
        at
    }
}

// The first line of a row.
#[tactic(auto, unfolding(crate::specs::Lines::row_line))]
fn put_row(out: &mut [u8; 2048], row: DrawnRow) -> usize
    ensures { (result ≤ 88) × (take result out.new ≡ row_line row) }
{
    let mut at = put_number(out, 0, b"row ", row.number as u64);
    at = put_number(out, at, b" lines ", row.lines as u64);
    at = put_hex(out, at, b" attr ", 3, row.format.attributes as u32);
    at = put_number(out, at, b" words ", row.words as u64);
    put(out, at, b"\n")
}

// Cells as a line, after the first `start` bytes.
pub fn put_cells(out: &mut [u8; 2048], start: usize, cells: &[u32]) -> usize
    requires { (length cells.now ≤ 132) × (start ≤ 800) }
    ensures { Line (take start out.old ++ cell_line cells.now) result out.new }
{
    let Some((&first, others)) = cells.split_first() else {
        return put_end(out, start);
    };
    let mut at = put_hex(out, start, b"", 8, first);
    for &cell in others {
        at = put_cell(out, at, cell);
    }
    put_end(out, at)
}

// A cell after another one.
fn put_cell(out: &mut [u8], at: usize, n: u32) -> usize
    requires { at + 9 ≤ length out.old }
    ensures { (result ≡ at + 9) × (take result out.new ≡ take at out.old ++ text " " ++ hex 8 n) }
{
    put_hex(out, at, b" ", 8, n)
}

// `name`, and `count` hex digits of a number.
pub fn put_hex(out: &mut [u8], at: usize, name: &[u8], count: usize, n: u32) -> usize
    requires { at + length name.now + count ≤ length out.old }
    ensures { (result ≡ at + length name.now + count) × (take result out.new ≡ take at out.old ++ name.now ++ hex count n) }
{
    let next = put(out, at, name);
    let end = next + count;
    spell(16, n as u64, &mut out[next..end]);
    end
}

// `name`, and a number in decimal.
pub fn put_number(out: &mut [u8], at: usize, name: &[u8], n: u64) -> usize
    requires { at + length name.now + 20 ≤ length out.old }
    ensures { (result ≤ at + length name.now + 20) × (take result out.new ≡ take at out.old ++ name.now ++ decimal n) }
{
    let mut text = [0u8; 20];
    spell(10, n, &mut text);
    let first = first_digit(&text);
    let next = put(out, at, name);
    put(out, next, &text[first..])
}

// The place of the first digit that is shown: zeros in front of the last digit are not.
fn first_digit(text: &[u8]) -> usize
    ensures { (result ≤ length text.now) × (drop result text.now ≡ fewest text.now) }
{
    let last = text.len().saturating_sub(1);
    text[..last].iter().position(|&c| c != b'0').unwrap_or(last)
}

// As many digits of `n` as `text` holds, the last one last.
fn spell(base: u64, n: u64, text: &mut [u8])
    requires { (0 < base) × (base ≤ 16) }
    ensures { text.new ≡ digits base (length text.old) n }
{
    let mut rest = n;
    for i in (0..text.len()).rev() {
        text[i] = digit(rest % base);
        rest /= base;
    }
}

fn digit(d: u64) -> u8
    requires { d < 16 }
    ensures { result ≡ Lines·digit d }
{
    if d < 10 {
        b'0' + d as u8
    } else {
        b'A' + (d - 10) as u8
    }
}

// How many of a row's 132 cells are shown.
pub fn cells_shown(s: Settings) -> usize
    ensures { result ≡ min (shown_columns s) 132 }
{
    (settings::shown_columns(s) as usize).min(132)
}
