#![tactic(auto)]
// The text that the mail program prints, a row at a time: a script that was refused, or a frame row by row.
ghost use Rattle.std.specs.Prelude.{◌≡◌, true};
ghost use Rattle.settings.specs.Good.{good};
ghost use Rattle.script.specs.Feeding.{stepped, outcome};
ghost use Rattle.lines.specs.Lines.{Line};
ghost use Rattle.mail.specs.Mail.{mail_text};
ghost use Rattle.text.specs.ToCome.{calls};
ghost use Rattle.mail_text.specs.MailText.{mailing, outcome_text};
ghost use Rattle.mail_text.specs.ToCome.{to_come, Next};

use lines::{Piece, Pieces};
use row::DrawnRow;
use script::Step;
use settings::Settings;
use text::{FrameForm, Text};

// The mail program's form: each row's terminal text, and nothing of the end.
pub struct Mailing;

impl FrameForm for Mailing {
    ghost form = { mailing };

    fn put_row(
        settings: Settings,
        _row: DrawnRow,
        cells: &[u32; 132],
        out: &mut [u8; 2048],
    ) -> usize {
        row_text(settings, cells, out)
    }

    fn put_end(_rows: u32, _words: u32, _out: &mut [u8; 2048]) -> Option<usize> {
        None
    }
}

// A text whose rows are terminal text.
#[derive(Clone, Copy)]
pub struct Mail(pub Text);

impl Pieces for Mail {
    type Of = [u16; 16384]; // memory

    ghost to_come = { λ m t. to_come m t.0 };

    ghost calls = { λ t. calls t.0 };

    fn next(self, mem: &[u16; 16384], out: &mut [u8; 2048]) -> Option<Piece<Mail>> {
        let Piece { count, after } = next(self.0, mem, out)?;
        Some(Piece {
            count,
            after: Mail(after),
        })
    }
}

// The text of a script, from where its bytes led; its input ends here.
pub fn begin(script: Step, mem: &[u16]) -> Text
    ensures { to_come mem.now result ≡ outcome_text (outcome (stepped script mem.now)) }
{
    text::begin(script, mem)
}

// The next row of a text, or its last line, at the start of `out`.
pub fn next(text: Text, mem: &[u16], out: &mut [u8; 2048]) -> Option<Piece<Text>>
    ensures { Next mem.now text result out.new }
{
    text::next::<Mailing>(text, mem, out)
}

// The text of a row. The longest has 1,593 bytes, so that with good settings and 132 cells nothing is refused.
fn row_text(settings: Settings, cells: &[u32; 132], out: &mut [u8; 2048]) -> usize
    requires { good settings ≡ true }
    ensures { Line (mail_text settings cells.now) result out.new }
{
    match mail::write_mail(settings, cells, out) {
        Ok(count) => count,
        Err(_) => 0,
    }
}
