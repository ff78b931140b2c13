// The lines of a bus report, each put at the start of a buffer; the answer is the line's length.
ghost use Rattle.std.specs.Prelude.{◌++◌, ◌≤◌};
ghost use Rattle.lines.specs.Lines.{Line};
ghost use Rattle.bus_text.specs.BusLines.{row_line, total_line, largest_line};

use bus::{BusRow, Figures, Totals};
use lines::{put_end, put_number};

// The line of a row.
pub(crate) fn row_line(row: BusRow, f: Figures, out: &mut [u8; 2048]) -> usize
    ensures { Line (row_line row f) result out.new }
{
    let mut at = put_number(out, 0, b"row ", row.row as u64);
    at = put_number(out, at, b": words ", row.words as u64);
    at = put_number(out, at, b", bursts ", f.bursts);
    at = put_number(out, at, b", clocks released at least ", f.released);
    put_end(out, at)
}

// The lines of the totals and of the largest row.
pub(crate) fn total_lines(t: Totals, out: &mut [u8; 2048]) -> usize
    ensures { Line (total_line t ++ largest_line t) result out.new }
{
    let mut at = put_number(out, 0, b"all rows: words ", t.words);
    at = put_number(out, at, b", bursts ", t.bursts);
    at = put_number(out, at, b", clocks released at least ", t.released);
    at = put_number(out, at, b"\nlargest: words ", t.largest);
    at = put_number(out, at, b", screen ", t.screen);
    at = put_number(out, at, b", row ", t.row);
    put_end(out, at)
}
