#![tactic(auto)]
// The writer and the reader of a row's text, with their answers as a number in a lent slice.
ghost use Rattle.std.specs.Prelude.{◌≡◌};
ghost use Rattle.mail.specs.Write.{write_mail};
ghost use Rattle.mail_reader.specs.Read.{read_mail};
ghost use Rattle.mail_answers.specs.AfterMail.{lent, after_write, after_read};

use settings::Settings;

// The text of a row's cells in `text`, and its length in `answer`; the status.
pub fn write(settings: Settings, cells: &[u32], text: &mut [u8], answer: &mut [u32; 1]) -> u8
    ensures { lent result text.new answer.new ≡ after_write answer.old (write_mail settings cells.now text.old) }
{
    match mail::write_mail(settings, cells, text) {
        Ok(count) => {
            *answer = [count as u32];
            0
        }
        Err(refusal) => refusal.number,
    }
}

// The cells of a row's text in `cells`, and in `answer` their count or the offset of refusal 24; the status.
pub fn read(text: &[u8], cells: &mut [u16], answer: &mut [u32; 1]) -> u8
    ensures { lent result cells.new answer.new ≡ after_read answer.old (read_mail text.now cells.old) }
{
    match mail_reader::read_mail(text, cells) {
        Ok(count) => {
            *answer = [count as u32];
            0
        }
        Err(refusal) => {
            if refusal.number == 24 {
                *answer = [refusal.address];
            }
            refusal.number
        }
    }
}
