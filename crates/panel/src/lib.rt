#![tactic(auto)]
// What the lines of a panel show while a frame is shifted: which row and scan line glides on each, which stands still, and their cells.
ghost use Rattle.std.specs.Prelude.{◌≡◌, nat_abs, take};
ghost use Rattle.panel.specs.Line.{place, row_at, above_at, background, background_lines, line};
ghost use Rattle.panel.specs.Answers.{shown_in};
ghost use Rattle.panel.specs.Shown.{layer, in_columns, cell_in, background_cell, cursor_bit, with_cursor_of, sized, show_called, show_call};

// A place in rows one after the other: which row, which of its scan lines, and how many of them from there on.
#[derive(Clone, Copy)]
pub struct Place {
    pub index: usize,
    pub line: u64,
    pub left: u64,
}

// What glides on a line: a row of the frame or below it, the row above, or nothing.
#[derive(Clone, Copy)]
pub enum Background {
    Nothing,
    Row(Place),
    Above(Place),
}

// A line of the screen: what glides there, what stands still, and how many lines from it on have these two rows.
#[derive(Clone, Copy)]
pub struct Line {
    pub background: Background,
    pub still: Option<Place>,
    pub lines: u64,
}

// The columns of a window, first to last; where there is none the first is past the last.
#[derive(Clone, Copy)]
pub struct Columns {
    pub first: u32,
    pub last: u32,
}

// Nothing to show, a dark place: bit 23, which no row sets.
const NOTHING: u32 = 8388608;

// Which of the first `rows` rows has line z.
pub fn place_of(heights: &[u32], rows: usize, z: u64) -> Option<Place>
    ensures { result ≡ place (take rows heights.now) z }
{
    let first = &heights[..rows.min(heights.len())];
    let mut rest = z;
    for (index, height) in first.iter().enumerate() {
        let height = *height as u64;
        if rest < height {
            return Some(Place {
                index,
                line: rest,
                left: height - rest,
            });
        }
        rest -= height;
    }
    None
}

// A line of the screen, of a frame with a shift: the height of the row above, 0 where there is none; the heights of the frame's rows and
// then of those below; how many are the frame's.
pub fn line_of(shift: i32, above: u32, heights: &[u32], rows: usize, y: u32) -> Line
    ensures { result ≡ line shift above heights.now rows y }
{
    let Some(s) = place_of(heights, rows, y as u64) else {
        return Line {
            background: Background::Nothing,
            still: None,
            lines: 0,
        };
    };
    let background = background_of(shift, above, heights, rows, y);
    Line {
        background,
        still: Some(s),
        lines: background_lines(shift, above, y, s.left, background),
    }
}

// What glides on a line.
fn background_of(shift: i32, above: u32, heights: &[u32], rows: usize, y: u32) -> Background
    ensures { result ≡ background shift above heights.now rows y }
{
    let d = lines_of(shift);
    let z = y as u64;
    if shift < 0 {
        if z < d {
            return above_at(above, d, y);
        }
        return row_at(place_of(heights, rows, z - d));
    }
    row_at(place_of(heights, heights.len(), z + d))
}

// The lines of a shift, either way.
pub fn lines_of(shift: i32) -> u64
    ensures { result ≡ nat_abs shift }
{
    shift.unsigned_abs() as u64
}

fn row_at(placed: Option<Place>) -> Background
    ensures { result ≡ row_at placed }
{
    placed.map_or(Background::Nothing, Background::Row)
}

// What comes down of the row above, on one of the first d lines.
fn above_at(above: u32, d: u64, y: u32) -> Background
    ensures { result ≡ above_at above d y }
{
    let end = above as u64 + y as u64;
    if d <= end {
        return Background::Above(Place {
            index: 0,
            line: end - d,
            left: d.saturating_sub(y as u64),
        });
    }
    Background::Nothing
}

// How many lines from y on have the one background, of `most`.
fn background_lines(shift: i32, above: u32, y: u32, most: u64, background: Background) -> u64
    ensures { result ≡ background_lines shift above y most background }
{
    match background {
        Background::Row(p) | Background::Above(p) => most.min(p.left),
        Background::Nothing if shift < 0 => {
            let dark = lines_of(shift).saturating_sub(above as u64);
            most.min(dark.saturating_sub(y as u64))
        }
        Background::Nothing => most,
    }
}

// The 132 cells of a line, from the row that stands still there, the row that glides there, each with the columns of the window on it,
// and what is behind the latter. Where a count is not 132, or of the rows 0, nothing is written.
pub fn show(
    still: &[u32],
    still_columns: Columns,
    gliding: &[u32],
    gliding_columns: Columns,
    behind: &[u32],
    cells: &mut [u32],
) -> bool
    ensures { show_called result cells.new ≡ show_call (layer still.now still_columns) (layer gliding.now gliding_columns) behind.now cells.old }
{
    if !(is_sized(still) & is_sized(gliding) & is_sized(behind)) {
        return false;
    }
    if cells.len() != 132 {
        return false;
    }
    for (x, cell) in cells.iter_mut().enumerate() {
        *cell = shown_in(still, still_columns, gliding, gliding_columns, behind, x);
    }
    true
}

// A row has 132 cells, or none where there is no row.
fn is_sized(cells: &[u32]) -> bool
    ensures { result ≡ sized cells.now }
{
    matches!(cells.len(), 0 | 132)
}

// What a line shows in column x: nothing where no row stands still.
fn shown_in(
    still: &[u32],
    still_columns: Columns,
    gliding: &[u32],
    gliding_columns: Columns,
    behind: &[u32],
    x: usize,
) -> u32
    ensures { result ≡ shown_in (layer still.now still_columns) (layer gliding.now gliding_columns) behind.now still.now x }
{
    if still.len() == 0 {
        return NOTHING;
    }
    let cell = cell_in(still, x);
    if is_in(still_columns, x) {
        return cell;
    }
    with_cursor_of(cell, background_cell(gliding, gliding_columns, behind, x))
}

fn is_in(columns: Columns, x: usize) -> bool
    ensures { result ≡ in_columns columns x }
{
    (columns.first as usize <= x) & (x <= columns.last as usize)
}

fn cell_in(cells: &[u32], x: usize) -> u32
    ensures { result ≡ cell_in cells.now x }
{
    cells.get(x).copied().unwrap_or(NOTHING)
}

// What glides in column x: of a row with a window there, the cell behind it.
fn background_cell(gliding: &[u32], gliding_columns: Columns, behind: &[u32], x: usize) -> u32
    ensures { result ≡ background_cell (layer gliding.now gliding_columns) behind.now gliding.now x }
{
    if gliding.len() == 0 {
        return NOTHING;
    }
    if is_in(gliding_columns, x) {
        return cell_in(behind, x);
    }
    cell_in(gliding, x)
}

// A cell with the absolute cursor of the row that stands still, and not its own.
fn with_cursor_of(still: u32, cell: u32) -> u32
    ensures { result ≡ with_cursor_of still cell }
{
    cell - cursor_bit(cell) + cursor_bit(still)
}

fn cursor_bit(cell: u32) -> u32
    ensures { result ≡ cursor_bit cell }
{
    cell / 4194304 % 2 * 4194304
}
