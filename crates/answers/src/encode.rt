// Answers as numbers at their places.
ghost use Rattle.std.specs.Prelude.{◌≡◌, ◌≤◌, length};
ghost use Rattle.answers.specs.AnswerNumbers.{sheet_numbers, one_number, row_told, with_refusal};

use blocks::RowFormat;
use memory::Refusal;
use settings::Sheet;

// A sheet's numbers.
#[tactic(auto, unfolding(crate::specs::AnswerNumbers::sheet_numbers))]
pub fn write_sheet(sheet: Sheet, into: &mut [u32; 21])
    ensures { into.new ≡ sheet_numbers sheet }
{
    let e = sheet.even;
    let o = sheet.odd;
    let c = sheet.clocks;
    *into = [
        0,
        0,
        0,
        e.sync as u32,
        e.back as u32,
        e.rise as u32,
        e.active as u32,
        e.front as u32,
        e.field as u32,
        o.sync as u32,
        o.back as u32,
        o.rise as u32,
        o.active as u32,
        o.front as u32,
        o.field as u32,
        sheet.lines as u32,
        c.sync as u32,
        c.period as u32,
        c.rise as u32,
        c.fall as u32,
        sheet.invoking as u32,
    ];
}

// An accepted call's one number.
pub fn write_number(n: u32, into: &mut [u32; 4])
    ensures { into.new ≡ one_number n }
{
    *into = [0, 0, 0, n];
}

// An accepted row's numbers, of a frame or beside its cut.
pub fn write_row(number: u32, lines: u16, format: RowFormat, words: u32, into: &mut [u32; 8])
    ensures { into.new ≡ row_told number lines format words }
{
    *into = [
        number,
        0,
        0,
        lines as u32,
        format.attributes as u32,
        format.curs as u32,
        format.cure as u32,
        words,
    ];
}

// A refusal's row and addresses, in an answer; its number.
pub fn refuse(refusal: Refusal, answer: &mut [u32]) -> u8
    requires { 3 ≤ length answer.old }
    ensures { (result ≡ refusal.number) × (answer.new ≡ with_refusal refusal answer.old) }
{
    answer[0] = refusal.row;
    answer[1] = refusal.address;
    answer[2] = refusal.from;
    refusal.number
}
