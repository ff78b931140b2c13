// Fill runs.
ghost use Rattle.std.specs.Prelude.{◌≡◌, ◌++◌, ◌+◌, ◌-◌, ◌≤◌, length, take, replicate};
ghost use Rattle.memory.specs.Reading.{run_from};
ghost use Rattle.cells.specs.Cells.{filled, unlatched, fill_by_word, fill_to};
ghost use Rattle.codes.specs.Answers.{so_far, drawn};
ghost use Rattle.cells.specs.Answers.{DrawnTo};

use blocks::FillMode;
use codes::{CodeSettings, Pen, Reached, Source, attribute, pens};
use memory::{Fault, Pointer};

// A fill run up to the column `end`. Called, and not in line, it would get the pen and give it back through memory.
#[inline(always)]
pub(crate) fn fill_to(
    mem: &[u16],
    settings: CodeSettings,
    fill: FillMode,
    end: usize,
    pen: Pen,
    words: u32,
    cells: &mut [u32],
) -> Result<Reached, Fault>
    requires { (end ≤ length cells.old) × (pen.column ≤ end) × (words ≤ 4200000000) }
    ensures reached { DrawnTo end (words + 1) result }
    ensures cells_after { drawn result cells.new ≡ run_from words mem.now (fill_to settings fill end (so_far pen cells.old)) }
{
    if pen.column < end {
        if fill.flag & pen.list.present {
            fill_by_word(mem, settings, fill, end, pen, words, cells)
        } else {
            Ok(Reached {
                pen: fill_run(fill, end, pen, cells),
                words,
            })
        }
    } else {
        Ok(Reached { pen, words })
    }
}

// A fill run that takes a word of the list in use first.
fn fill_by_word(
    mem: &[u16],
    settings: CodeSettings,
    fill: FillMode,
    end: usize,
    pen: Pen,
    words: u32,
    cells: &mut [u32],
) -> Result<Reached, Fault>
    requires { (end ≤ length cells.old) × (pen.column ≤ end) × (words ≤ 4200000000) }
    ensures reached { DrawnTo end (words + 1) result }
    ensures cells_after { drawn result cells.new ≡ run_from words mem.now (fill_by_word settings fill end (so_far pen cells.old)) }
{
    let next = pen.list.next;
    let Some(w) = memory::word_at(mem, next.address) else {
        return Err(memory::missing(next));
    };
    if memory::bit_15(w) {
        let taken = pens::take_word(settings.linear, w, pen);
        Ok(Reached {
            pen: fill_run(fill, end, taken, cells),
            words: words + 1,
        })
    } else {
        Err(unlatched(next))
    }
}

// Refusal 13: the attribute pointer in use is to blame.
pub fn unlatched(p: Pointer) -> Fault
    ensures { result ≡ unlatched p }
{
    Fault {
        number: 13,
        address: p.address,
        from: p.from,
    }
}

// Fill cells from the pen's column up to the column `end`.
pub fn fill_run(fill: FillMode, end: usize, pen: Pen, cells: &mut [u32]) -> Pen
    requires { (end ≤ length cells.old) × (pen.column ≤ end) }
    ensures column_value { result.column ≡ end }
    ensures cells_after { so_far result cells.new ≡ filled fill end (so_far pen cells.old) }
{
    let value = attribute::cell(Source { kind: 0, window: 0 }, pen.latch, fill.code);
    fill_cells(cells, pen.column, end, value);
    pens::moved_to(end, pen)
}

// The cells from the column `a` up to the column `e` set to `v`.
fn fill_cells(cells: &mut [u32], a: usize, e: usize, v: u32)
    requires { (a ≤ e) × (e ≤ length cells.old) }
    ensures { take e cells.new ≡ take a cells.old ++ replicate (e - a) v }
{
    for cell in &mut cells[a..e] {
        *cell = v;
    }
}
