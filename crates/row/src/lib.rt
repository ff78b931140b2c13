#![tactic(auto)]
// The row call: the next row of a frame, into a row buffer.
ghost use Rattle.std.specs.Prelude.{◌≡◌, ◌&&◌, true, length, eqb};
ghost use Rattle.memory.specs.Reading.{given, run};
ghost use Rattle.state.specs.State.{state_of};
ghost use Rattle.plan.specs.Plan.{plan};
ghost use Rattle.plan.specs.Answers.{plan_of};
ghost use Rattle.row.specs.Row.{code_settings, row, with_cursor, called, answer_of, answered, row_call, FewWords};

use blocks::RowFormat;
use codes::CodeSettings;
use memory::Refusal;
use plan::PlanHead;
use settings::Settings;
use state::{Fields, State};

// The answer of an accepted row, but for its cells, which the row buffer has.
#[derive(Clone, Copy, PartialEq, Eq)]
pub struct DrawnRow {
    pub number: u32,
    pub lines: u16,
    pub format: RowFormat,
    pub words: u32,
    pub next: State,
}

// The next row: its cells in `buffer` and its answer, or a refusal that leaves the buffer as it was.
pub fn row(
    settings: Settings,
    mem: &[u16],
    state: State,
    buffer: &mut [u32],
) -> Result<DrawnRow, Refusal>
    ensures few_words { FewWords result }
    ensures buffer_after { called result buffer.new ≡ row_call settings mem.now state buffer.old }
{
    let fields = state.fields;
    if buffer.len() != 132 {
        return Err(memory::refusal_of(fields.row, memory::fault_of(1)));
    }
    let mut back = [0u16; 75];
    let mut window = [0u16; 75];
    let plan = plan::plan_row(mem, settings, fields, &mut back, &mut window);
    let p = memory::told_in(fields.row, plan)?;
    draw_planned(settings, mem, state, p, &back, &window, buffer)
}

// The settings that the cells of a row are drawn by, `linear` written out: a plan was accepted.
pub fn code_settings(settings: Settings) -> CodeSettings
    requires { settings.linear ≡ true }
    ensures { result ≡ code_settings settings }
{
    CodeSettings {
        linear: true,
        hidden: settings.hidden,
        flag: settings.flag,
    }
}

// A planned row: its cells are drawn in the buffer, and a refusal puts back what stood there before.
pub fn draw_planned(
    settings: Settings,
    mem: &[u16],
    state: State,
    p: PlanHead,
    back: &[u16; 75],
    window: &[u16; 75],
    buffer: &mut [u32],
) -> Result<DrawnRow, Refusal>
    requires { (length buffer.old ≡ 132) × (given p.words (plan_of settings.linear p back.now window.now) ≡ run mem.now (plan settings state.fields)) }
    ensures few_words { FewWords result }
    ensures buffer_after { called result buffer.new ≡ answered settings state.fields buffer.old (run mem.now (row settings state)) }
{
    let fields = state.fields;
    let fill = fields.fill;
    let overlay = p.overlay;
    let count = p.count;
    let code = code_settings(settings);
    let mut kept = [0u32; 132];
    kept.copy_from_slice(buffer);
    match cells::draw_cells(
        mem,
        code,
        fill,
        overlay,
        back,
        count,
        window,
        state.latch,
        p.words,
        buffer,
    ) {
        Err(fault) => {
            buffer.copy_from_slice(&kept);
            Err(memory::refusal_of(fields.row, fault))
        }
        Ok(drawn) => {
            mark_cursor(settings, fields, buffer);
            row_answer(fields.row, p, drawn.latch, drawn.words)
        }
    }
}

// The answer of an accepted row.
pub fn row_answer(number: u32, p: PlanHead, latch: u16, read: u32) -> Result<DrawnRow, Refusal>
    ensures { result ≡ answer_of number p.lines p.format read (state_of latch p.next) }
{
    let format = p.format;
    let fields = p.next;
    let next = State { latch, fields };
    Ok(DrawnRow {
        number,
        lines: p.lines,
        format,
        words: read,
        next,
    })
}

// Bit 22 of the cell at the absolute cursor, when it is enabled and on this row.
pub fn mark_cursor(settings: Settings, fields: Fields, cells: &mut [u32])
    requires { length cells.old ≡ 132 }
    ensures { cells.new ≡ with_cursor settings fields cells.old }
{
    let x = fields.cursor.x as usize;
    if is_cursor_row(settings.cursor, fields) & (x < 132) {
        cells[x] = cells[x] | 4194304;
    }
}

// Is the absolute cursor enabled and on this row?
fn is_cursor_row(enabled: bool, fields: Fields) -> bool
    ensures { result ≡ enabled && eqb fields.cursor.y fields.row }
{
    enabled & (fields.cursor.y as u32 == fields.row)
}
