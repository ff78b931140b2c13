#![tactic(auto)]
// The text of a script, a few lines at a time: a script that was refused, or a frame row by row. What is written of a frame has
// a form; that of the draw program is here.
ghost use Rattle.std.specs.Prelude.{◌≡◌, true};
ghost use Rattle.settings.specs.Good.{good};
ghost use Rattle.script.specs.Feeding.{stepped, outcome};
ghost use Rattle.frame.specs.Frame.{frame, frame_row};
ghost use Rattle.lines.specs.Lines.{Line};
ghost use Rattle.text.specs.declared.Text.TheVariants.{Rows};
ghost use Rattle.text.specs.Form.{Form, Ends, frame_text, outcome_text, to_come, calls, Next};
ghost use Rattle.text.specs.Text.{drawing};

use frame::{Progress, StepAnswer};
use lines::{Piece, Pieces};
use memory::Refusal;
use row::DrawnRow;
use script::Step;
use settings::Settings;

// What of a text is still to come.
#[derive(Clone, Copy)]
pub enum Text {
    Rows {
        settings: Settings,
        progress: Progress,
    }, // the rows of a frame in progress, and its last line
    Refused(Refusal), // the line of a refused start
    NoScript(u64), // the line of a script that is refused at this offset
    Ended,
}

// The form of a frame's text: what is written of a row, and what follows the last row where no refusal does.
pub trait FrameForm {
    ghost form: { Form };

    // A row that was drawn, so that its settings are good.
    fn put_row(settings: Settings, row: DrawnRow, cells: &[u32; 132], out: &mut [u8; 2048]) -> usize
        requires { good settings ≡ true }
        ensures { Line (form.row settings (frame_row row cells.now)) result out.new };

    // The end of a frame, if anything is written of it.
    fn put_end(rows: u32, words: u32, out: &mut [u8; 2048]) -> Option<usize>
        ensures { Ends (form.end rows words) result out.new };
}

// The draw program's form: lines of each row, and an end line.
pub struct Drawing;

impl FrameForm for Drawing {
    ghost form = { drawing };

    fn put_row(
        settings: Settings,
        row: DrawnRow,
        cells: &[u32; 132],
        out: &mut [u8; 2048],
    ) -> usize {
        lines::row_lines(settings, row, cells, out)
    }

    fn put_end(rows: u32, words: u32, out: &mut [u8; 2048]) -> Option<usize> {
        Some(lines::end_line(rows as u64, words as u64, out))
    }
}

impl Pieces for Text {
    type Of = [u16; 16384]; // memory

    ghost to_come = { to_come drawing };

    ghost calls = { calls };

    fn next(self, mem: &[u16; 16384], out: &mut [u8; 2048]) -> Option<Piece<Text>> {
        next::<Drawing>(self, mem, out)
    }
}

// The text of a script, from where its bytes led; its input ends here. It is the script's in whatever form it is written.
pub fn begin(script: Step, mem: &[u16]) -> Text
    ensures { (f : Form) → to_come f mem.now result ≡ outcome_text f (outcome (stepped script mem.now)) }
{
    match script {
        Step::Draw(settings) => begin_frame(settings, mem),
        Step::Refused(offset) => Text::NoScript(offset),
        Step::More(s) => Text::NoScript(script::at_end(s)),
    }
}

// The first frame that a console draws: from latch 0.
fn begin_frame(settings: Settings, mem: &[u16]) -> Text
    ensures { (f : Form) → to_come f mem.now result ≡ frame_text f settings (frame 0 settings mem.now) }
{
    match frame::begin(settings, mem, 0) {
        Ok(progress) => Text::Rows { settings, progress },
        Err(refusal) => Text::Refused(refusal),
    }
}

// The next lines of a text in a form, at the start of `out`; or that it is at its end.
pub fn next<F: FrameForm>(text: Text, mem: &[u16], out: &mut [u8; 2048]) -> Option<Piece<Text>>
    ensures { Next F.form mem.now text result out.new }
{
    match text {
        Text::Rows { settings, progress } => next_row::<F>(settings, progress, mem, out),
        Text::Refused(refusal) => Some(Piece {
            count: lines::refusal_line(refusal, out),
            after: Text::Ended,
        }),
        Text::NoScript(offset) => Some(Piece {
            count: lines::script_line(offset, out),
            after: Text::Ended,
        }),
        Text::Ended => None,
    }
}

// What is written of a frame's next row, of its end or of its refusal.
fn next_row<F: FrameForm>(
    settings: Settings,
    progress: Progress,
    mem: &[u16],
    out: &mut [u8; 2048],
) -> Option<Piece<Text>>
    ensures { Next F.form mem.now (Rows settings progress) result out.new }
{
    let mut cells = [0u32; 132];
    match frame::step(settings, mem, progress, &mut cells) {
        StepAnswer::Drawn {
            row,
            progress: after,
        } => Some(Piece {
            count: F::put_row(settings, row, &cells, out),
            after: Text::Rows {
                settings,
                progress: after,
            },
        }),
        StepAnswer::Ended { rows, words } => {
            let count = F::put_end(rows, words, out)?;
            Some(Piece {
                count,
                after: Text::Ended,
            })
        }
        StepAnswer::Refused(refusal) => Some(Piece {
            count: lines::refusal_line(refusal, out),
            after: Text::Ended,
        }),
    }
}
