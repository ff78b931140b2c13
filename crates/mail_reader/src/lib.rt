#![tactic(auto)]
// A row read back from terminal text with ECMA-48 marks.
ghost use Rattle.std.specs.Prelude.{◌≡◌, List, [], ℕ, ◌≤◌, length, take, drop};
ghost use Rattle.memory.specs.Reading.{refusal};
ghost use Rattle.mail_reader.specs.Reader.{common, tried, next_cell, joined, ended, cells_read, read_row};
ghost use Rattle.mail_reader.specs.Read.{not_of_this_form, read_back, read_mail, FewCells};
ghost use Rattle.mail_reader.specs.Answers.{row_read, NextWithin, RowWithin};

use memory::{Fault, Refusal};

// A cell, and the bytes that it takes with its change of marks.
#[derive(Clone, Copy)]
pub struct CellRead {
    pub cell: u16,
    pub bytes: usize,
}

// The cells of a row's text, at the start of `cells`; or refusal 24 or 23, which leave `cells` as they were. A cell has its character
// in bits 7..0, highlight in bit 8, underline in 9, blink in 10 and reverse in 11.
pub fn read_mail(text: &[u8], cells: &mut [u16]) -> Result<usize, Refusal>
    ensures few_cells { FewCells result }
    ensures cells_after { read_back result cells.new ≡ read_mail text.now cells.old }
{
    let mut row = [0u16; 132];
    let count = read_row(text, &mut row).map_err(not_of_this_form)?;
    if cells.len() < count {
        return memory::refused(23);
    }
    cells[..count].copy_from_slice(&row[..count]);
    Ok(count)
}

// Refusal 24, which tells the offset as its address.
fn not_of_this_form(offset: usize) -> Refusal
    requires { offset ≤ 1800 }
    ensures { result ≡ refusal 0 (not_of_this_form offset) }
{
    let fault = Fault {
        number: 24,
        address: offset as u32,
        from: 0,
    };
    memory::refusal_of(0, fault)
}

// The cells of a row's text, at the start of `row`.
fn read_row(text: &[u8], row: &mut [u16; 132]) -> Result<usize, usize>
    ensures { (row_read result row.new ≡ read_row text.now) × RowWithin row.new result }
{
    let start = common(b"\x1b[0m", text);
    if start < 4 {
        return Err(start);
    }
    read_cells(text, row)
}

// The cells after the start of a row, and its end.
fn read_cells(text: &[u8], row: &mut [u16; 132]) -> Result<usize, usize>
    requires { 4 ≤ length text.now }
    ensures { (row_read result row.new ≡ joined [] 4 (cells_read 132 0 0 (drop 4 text.now))) × RowWithin row.new result }
{
    let mut at = 4;
    let mut before: u8 = 0;
    for (count, cell) in row.iter_mut().enumerate() {
        match next_cell(&text[at..], before) {
            Ok(next) => {
                *cell = next.cell;
                before = (next.cell / 256) as u8;
                at += next.bytes;
            }
            Err(reach) => return end_row(&text[at..], at, count, reach),
        }
    }
    end_row(&text[at..], at, 132, 0)
}

// The end of a row of `count` cells, `at` bytes into its text, where `reach` bytes are like another cell.
fn end_row(text: &[u8], at: usize, count: usize, reach: usize) -> Result<usize, usize>
    requires { (at ≤ 1720) × (reach ≤ 13) }
    ensures { (row : List ℕ) → count ≤ length row → (row_read result row ≡ joined (take count row) at (ended count reach text.now)) × RowWithin row result }
{
    if count == 0 {
        return Err(at + reach);
    }
    let end = common(b"\x1b[0m\n", text);
    if (end == 5) & (text.len() == 5) {
        Ok(count)
    } else {
        Err(at + reach.max(end))
    }
}

// The cell that a text begins with, after one with the marks `before`; or how many of its bytes are like one.
fn next_cell(text: &[u8], before: u8) -> Result<CellRead, usize>
    ensures { (result ≡ next_cell 16 before text.now) × NextWithin text.now result }
{
    let mut reach = 0usize;
    for marks in (0..16).rev() {
        match try_marks(text, before, marks) {
            Ok(found) => return Ok(found),
            Err(i) => reach = reach.max(i),
        }
    }
    Err(reach)
}

// A cell with these marks, or how many bytes are like one.
fn try_marks(text: &[u8], before: u8, marks: u8) -> Result<CellRead, usize>
    ensures { (result ≡ tried before marks text.now) × NextWithin text.now result }
{
    let mut change = [0u8; 12];
    let n = mail::change(before, marks, &mut change);
    let reach = common(&change[..n], text);
    if reach < n {
        return Err(reach);
    }
    let Some(&character) = text.get(n) else {
        return Err(reach);
    };
    if !mail::is_character(character) {
        return Err(reach);
    }
    Ok(CellRead {
        cell: character as u16 + marks as u16 * 256,
        bytes: n + 1,
    })
}

// The length of the longest beginning that a fixed text and another share.
fn common(fixed: &[u8], text: &[u8]) -> usize
    ensures { result ≡ common fixed.now text.now }
{
    let shorter = fixed.len().min(text.len());
    for i in 0..shorter {
        if fixed[i] != text[i] {
            return i;
        }
    }
    shorter
}
