#![tactic(auto)]
// A row as terminal text with ECMA-48 marks: the writer.
ghost use Rattle.std.specs.Prelude.{◌≡◌, ◌∷◌, [], ◌++◌, map, ◌+◌, ◌≤◌, ◌<◌, length, take};
ghost use Rattle.memory.specs.Word.{when◌then◌else◌};
ghost use Rattle.codes.specs.Attribute.{code_of, attribute_of};
ghost use Rattle.mail.specs.Mail.{is_character, character_for, marks_for, text_cell, character_of, marks_of, sequence, change, row_end, row_text};
ghost use Rattle.mail.specs.Write.{mailed, refuse, write_mail, FewBytes};
ghost use Rattle.mail.specs.Answers.{Put};

use memory::Refusal;
use settings::Settings;

// The shown columns of a row's cells as text, at the start of `text`; or refusal 1, 2 or 23, which leave `text` as it was.
pub fn write_mail(settings: Settings, cells: &[u32], text: &mut [u8]) -> Result<usize, Refusal>
    ensures few_bytes { FewBytes result }
    ensures text_after { mailed result text.new ≡ write_mail settings cells.now text.old }
{
    if cells.len() != 132 {
        return memory::refused(1);
    }
    if !settings::is_good(settings) {
        return memory::refused(2);
    }
    let mut row = [0u8; 1725];
    let count = put_row(&mut row, cells, settings::shown_columns(settings) as usize);
    if text.len() < count {
        return memory::refused(23);
    }
    put(text, 0, &row[..count]);
    Ok(count)
}

// Is the byte a character that the text can have?
pub fn is_character(code: u8) -> bool
    ensures { result ≡ is_character code }
{
    matches!(code, 0x20..=0x7e)
}

// What stands before a cell with `marks` where the one before has the marks `before`, at the start of `out`; its length. What the bytes of
// `out` past it are is left free.
pub fn change(before: u8, marks: u8, out: &mut [u8; 12]) -> usize
    ensures { (result ≤ 12) × (result ≤ length out.new) × (take result out.new ≡ change before marks) }
{
    put_change(out, 0, before, marks)
}

// The text of the first `columns` cells. A cell has at most 13 bytes, with its change of marks.
fn put_row(out: &mut [u8; 1725], cells: &[u32], columns: usize) -> usize
    requires { (columns ≤ 132) × (columns ≤ length cells.now) }
    ensures { (result ≤ length out.new) × (take result out.new ≡ row_text (map text_cell (take columns cells.now))) }
{
    let mut at = put(out, 0, b"\x1b[0m");
    let mut before: u8 = 0;
    for cell in &cells[..columns] {
        at = put_cell(out, at, before, *cell);
        before = marks_of(*cell);
    }
    put_end(out, at)
}

// The end of a row.
fn put_end(out: &mut [u8], at: usize) -> usize
    requires { at + 5 ≤ length out.old }
    ensures { (result ≡ at + 5) × (take result out.new ≡ take at out.old ++ row_end) }
{
    put(out, at, b"\x1b[0m\n")
}

// A cell after one with the marks `before`.
fn put_cell(out: &mut [u8], at: usize, before: u8, cell: u32) -> usize
    requires { at + 13 ≤ length out.old }
    ensures { (result ≤ at + 13) × (take result out.new ≡ take at out.old ++ change before (marks_of (text_cell cell)) ++ (character_of (text_cell cell) ∷ [])) }
{
    let end = put_change(out, at, before, marks_of(cell));
    out[end] = character_of(cell);
    end + 1
}

fn put_change(out: &mut [u8], at: usize, before: u8, marks: u8) -> usize
    requires { at + 12 ≤ length out.old }
    ensures { (result ≤ at + 12) × (take result out.new ≡ take at out.old ++ change before marks) }
{
    if marks == before {
        return at;
    }
    put_sequence(out, at, marks)
}

// A fresh 0, and the marks that hold, rising.
fn put_sequence(out: &mut [u8], at: usize, marks: u8) -> usize
    requires { at + 12 ≤ length out.old }
    ensures { (result ≤ at + 12) × (take result out.new ≡ take at out.old ++ sequence marks) }
{
    let mut end = put(out, at, b"\x1b[0");
    end = put_if(marks % 2 == 1, out, end, b";1");
    end = put_if(marks / 2 % 2 == 1, out, end, b";4");
    end = put_if(marks / 4 % 2 == 1, out, end, b";5");
    end = put_if(marks / 8 % 2 == 1, out, end, b";7");
    put(out, end, b"m")
}

// `text` after the first `at` bytes of `out`, where `test` holds.
fn put_if(test: bool, out: &mut [u8], at: usize, text: &[u8]) -> usize
    requires { at + length text.now ≤ length out.old }
    ensures { (result ≤ at + length text.now) × (take result out.new ≡ take at out.old ++ (when test then text.now else [])) }
{
    if test { put(out, at, text) } else { at }
}

// `text` after the first `at` bytes of `out`; the bytes past it stay. A `for`, as `copy_from_slice` is a call for these few bytes.
fn put(out: &mut [u8], at: usize, text: &[u8]) -> usize
    requires { at + length text.now ≤ length out.old }
    ensures { Put at text.now out.old result out.new }
{
    for (i, &byte) in text.iter().enumerate() {
        out[at + i] = byte;
    }
    at + text.len()
}

// The character of a cell, or `?`.
fn character_of(cell: u32) -> u8
    ensures { result ≡ character_for (code_of cell) }
{
    let code = (cell % 256) as u8;
    if is_character(code) { code } else { b'?' }
}

// The marks of a cell: highlight, underline, blink and reverse are bits 6, 1, 0 and 5 of its attribute, whose bit 0 is the cell's bit 8.
fn marks_of(cell: u32) -> u8
    ensures { result ≡ marks_for (attribute_of cell) }
{
    let attribute = cell / 256 % 2048;
    (attribute / 64 % 2 + attribute / 2 % 2 * 2 + attribute % 2 * 4 + attribute / 32 % 2 * 8) as u8
}
