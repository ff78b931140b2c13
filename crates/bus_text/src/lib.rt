#![tactic(auto)]
// The text of a bus report, a few lines at a time: a line for each row of a frame, then the totals and the largest row.
ghost use Rattle.std.specs.Prelude.{◌≡◌, ◌+◌, ◌<◌};
ghost use Rattle.script.specs.Feeding.{stepped, outcome};
ghost use Rattle.bus_text.specs.FrameReport.{one_screen, frame_text, outcome_text};
ghost use Rattle.bus_text.specs.ToCome.{to_come, calls, Next, RowNext};
ghost use Rattle.bus_text.specs.declared.Text.TheVariants.{Rows};

use bus::{BusRow, Reported, Totals};
use frame::{Progress, StepAnswer};
use lines::{Piece, Pieces};
use memory::Refusal;
use script::Step;
use settings::Settings;

mod bus_lines; // the lines

// The report of a frame in progress: `before` are the words that go with its next row and are not that row's own.
#[derive(Clone, Copy)]
pub struct Reporting {
    pub settings: Settings,
    pub burst: u16,
    pub before: u16,
    pub totals: Totals,
    pub progress: Progress,
}

// What of a text is still to come.
#[derive(Clone, Copy)]
pub enum Text {
    Rows(Reporting), // the rows of a frame in progress, and its last lines
    Refused(Refusal), // the line of a refusal
    NoScript(u64), // the line of a script that is refused at this offset
    Ended,
}

// The text of a script, from where its bytes led and with its burst register; its input ends here.
pub fn begin(script: Step, burst: u16, mem: &[u16]) -> Text
    ensures { to_come mem.now result ≡ outcome_text burst (outcome (stepped script mem.now)) }
{
    match script {
        Step::Draw(settings) => begin_frame(settings, burst, mem),
        Step::Refused(offset) => Text::NoScript(offset),
        Step::More(s) => Text::NoScript(script::at_end(s)),
    }
}

impl Pieces for Text {
    type Of = [u16; 16384]; // memory

    ghost to_come = { to_come };

    ghost calls = { calls };

    fn next(self, mem: &[u16; 16384], out: &mut [u8; 2048]) -> Option<Piece<Text>> {
        next(self, mem, out)
    }
}

// The next lines of a text, at the start of `out`; or that it is at its end.
pub fn next(text: Text, mem: &[u16], out: &mut [u8; 2048]) -> Option<Piece<Text>>
    ensures { Next mem.now text result out.new }
{
    match text {
        Text::Rows(p) => next_row(p, mem, out),
        Text::Refused(refusal) => Some(Piece {
            count: lines::refusal_line(refusal, out),
            after: Text::Ended,
        }),
        Text::NoScript(offset) => Some(Piece {
            count: lines::script_line(offset, out),
            after: Text::Ended,
        }),
        Text::Ended => None,
    }
}

// The first frame that a console draws: from latch 0. The words of its start go with row 0.
fn begin_frame(settings: Settings, burst: u16, mem: &[u16]) -> Text
    ensures { to_come mem.now result ≡ frame_text burst settings mem.now }
{
    match frame::begin(settings, mem, 0) {
        Ok(progress) => Text::Rows(Reporting {
            settings,
            burst,
            before: progress.words as u16,
            totals: bus::none(),
            progress,
        }),
        Err(refusal) => Text::Refused(refusal),
    }
}

// The line of a frame's next row, or its last lines.
fn next_row(p: Reporting, mem: &[u16], out: &mut [u8; 2048]) -> Option<Piece<Text>>
    ensures { Next mem.now (Rows p) result out.new }
{
    let mut cells = [0u32; 132];
    match frame::step(p.settings, mem, p.progress, &mut cells) {
        StepAnswer::Drawn { row, progress } => {
            let h = handed_in(p.burst, p.before, row.words, row.number);
            write_row(p, progress, h, bus::report_by_value(p.totals, h), out)
        }
        StepAnswer::Ended { .. } => Some(Piece {
            count: bus_lines::total_lines(p.totals, out),
            after: Text::Ended,
        }),
        StepAnswer::Refused(refusal) => Some(Piece {
            count: lines::refusal_line(refusal, out),
            after: Text::Ended,
        }),
    }
}

// A row of the program's one screen, as it is handed in.
fn handed_in(burst: u16, before: u16, words: u32, row: u32) -> BusRow
    requires { words < 12000 }
    ensures { result ≡ record { burst = burst; words = before + words; screen = one_screen; row = row } }
{
    BusRow {
        burst,
        words: before as u32 + words,
        screen: 0,
        row,
    }
}

// The line of a row that was handed in, and the report after it; or the report's refusal.
fn write_row(
    p: Reporting,
    progress: Progress,
    row: BusRow,
    r: Reported,
    out: &mut [u8; 2048],
) -> Option<Piece<Text>>
    requires { progress.state.fields.left < p.progress.state.fields.left }
    ensures { RowNext p progress row r result out.new }
{
    match r.answer {
        Ok(f) => Some(Piece {
            count: bus_lines::row_line(row, f, out),
            after: Text::Rows(Reporting {
                before: 0,
                totals: r.totals,
                progress,
                ..p
            }),
        }),
        Err(refusal) => Some(Piece {
            count: lines::refusal_line(refusal, out),
            after: Text::Ended,
        }),
    }
}
