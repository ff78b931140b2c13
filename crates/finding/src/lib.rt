#![tactic(auto)]
// Which row of a frame has a line, found by going through its rows; and how a frame ends.
ghost use Rattle.std.specs.Prelude.{◌≡◌, length};
ghost use Rattle.panel.specs.Shown.{no_columns};
ghost use Rattle.picture.specs.Picture.{columns_of};
ghost use Rattle.finding.specs.Finding.{Walks, Ends};

use memory::Refusal;
use panel::Columns;
use row::DrawnRow;
use settings::Settings;
use state::State;
use windows::Window;

// A row that has a line: its number among the rows, the scan line, its answer and the state before it.
#[derive(Clone, Copy)]
pub struct WalkedRow {
    pub index: u64,
    pub line: u64,
    pub row: DrawnRow,
    pub before: State,
}

// The row that has a line; or how far past the rows it is, with the state after the last one or the refusal that ended them.
#[derive(Clone, Copy)]
pub enum Walked {
    At(WalkedRow),
    Past { state: State, line: u64 },
    Stopped { refusal: Refusal, line: u64 },
}

// The row that has line z of the rows from a state on, its cells in the buffer.
pub fn walk(settings: Settings, mem: &[u16], state: State, z: u64, cells: &mut [u32]) -> Walked
    requires { length cells.old ≡ 132 }
    ensures { Walks settings mem.now state z result cells.new }
{
    let mut before = state;
    let mut line = z;
    let mut index = 0;
    while 0 < before.fields.left {
        match row::row(settings, mem, before, cells) {
            Err(refusal) => {
                return Walked::Stopped { refusal, line };
            }
            Ok(row) => {
                let next = row.next;
                let height = next.fields.format.lines as u64;
                if line < height {
                    return Walked::At(WalkedRow {
                        index,
                        line,
                        row,
                        before,
                    });
                }
                line -= height;
                index += 1;
                before = next;
            }
        }
    }
    Walked::Past {
        state: before,
        line,
    }
}

// The rows from a state on, to their end.
pub fn end_of(settings: Settings, mem: &[u16], state: State) -> Result<State, Refusal>
    ensures { Ends settings mem.now state result }
{
    let mut before = state;
    let mut cells = [0u32; 132];
    while 0 < before.fields.left {
        let row = row::row(settings, mem, before, &mut cells)?;
        let next = row.next;
        before = next;
    }
    Ok(before)
}

// The columns of the window on a row, from the row's number and the window in hand after it.
pub fn columns_of(number: u32, window: Option<Window>) -> Columns
    ensures { result ≡ columns_of number «window» }
{
    match window {
        None => no_columns(),
        Some(w) => {
            let block = w.block;
            if (block.top as u32 <= number) & (number <= block.bottom as u32) {
                Columns {
                    first: block.left as u32,
                    last: block.right as u32,
                }
            } else {
                no_columns()
            }
        }
    }
}

// No window: the first column is past the last.
fn no_columns() -> Columns
    ensures { result ≡ no_columns }
{
    Columns { first: 1, last: 0 }
}
