// The calls of a row's text.
ghost use Rattle.std.specs.Prelude.{◌≡◌};
ghost use Rattle.mail_answers.specs.AfterMail.{lent};
ghost use Rattle.thagaduvin.specs.MailCalls.{host_write_mail, host_read_mail};

use numbers::decode;

// The text of a row's cells, in `text`, and its length, in `answer`.
#[tactic(auto, unfolding(crate::specs::MailCalls::host_write_mail))]
pub fn thagaduvin_write_mail(
    settings: &[u32],
    cells: &[u32],
    text: &mut [u8],
    answer: &mut [u32],
) -> u8
    ensures { lent result text.new answer.new ≡ host_write_mail settings.now cells.now text.old answer.old }
{
    let Some(answer) = answer.as_mut_array() else {
        return 255;
    };
    match decode::settings_in(settings) {
        Some(s) => mail_answers::write(s, cells, text, answer),
        None => 255,
    }
}

// The cells of a row's text, in `cells`, and their count, in `answer`; or the offset at which the text is none.
#[tactic(auto, unfolding(crate::specs::MailCalls::host_read_mail))]
pub fn thagaduvin_read_mail(text: &[u8], cells: &mut [u16], answer: &mut [u32]) -> u8
    ensures { lent result cells.new answer.new ≡ host_read_mail text.now cells.old answer.old }
{
    let Some(answer) = answer.as_mut_array() else {
        return 255;
    };
    mail_answers::read(text, cells, answer)
}
