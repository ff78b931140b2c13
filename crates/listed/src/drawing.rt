// A planned row, sure or not.
ghost use Rattle.std.specs.Prelude.{◌≡◌, Bool, true, ◌+◌, ◌≤◌, length};
ghost use Rattle.std.proofs.lemmas.List.Edits.{sets};
ghost use Rattle.memory.specs.Word.{when◌then◌else◌};
ghost use Rattle.memory.specs.Reading.{given, run, asked};
ghost use Rattle.blocks.specs.RowBlock.{segments_of};
ghost use Rattle.layout.specs.Answers.{overlay_of};
ghost use Rattle.codes.specs.Codes.{blank};
ghost use Rattle.cells.specs.Cells.{row_cells};
ghost use Rattle.plan.specs.Plan.{plan};
ghost use Rattle.plan.specs.Answers.{plan_of};
ghost use Rattle.sure.specs.Sure.{sure_row};
ghost use Rattle.row.specs.Row.{code_settings, row, called, answered, FewWords};
ghost use Rattle.listed.specs.Answers.{is_accepted};

use memory::Refusal;
use plan::PlanHead;
use row::DrawnRow;
use settings::Settings;
use state::State;

// A planned row: where it is sure, with the addresses of its cells' words after the places of its blocks', which begin at `at`. Another
// leaves the list.
pub(crate) fn draw(
    certain: bool,
    settings: Settings,
    mem: &[u16],
    state: State,
    p: PlanHead,
    back: &[u16; 75],
    window: &[u16; 75],
    buffer: &mut [u32],
    at: u32,
    list: &mut [u32],
) -> Result<DrawnRow, Refusal>
    requires buffer_len { (length buffer.old ≡ 132) × (given p.words (plan_of settings.linear p back.now window.now) ≡ run mem.now (plan settings state.fields)) }
    requires fact { ((certain ≡ true → sure_row settings.hidden state.fields.fill.flag mem.now (overlay_of true p.overlay window.now) (segments_of true p.count back.now) ≡ true)) × (at ≤ 13) }
    ensures few_words { FewWords result × (certain ≡ true → is_accepted result ≡ true) }
    ensures buffer_after { called result buffer.new ≡ answered settings state.fields buffer.old (run mem.now (row settings state)) }
    ensures list_after { list.new ≡ (when certain then sets list.old (at + p.words) (asked mem.now (row_cells (code_settings settings) state.fields.fill (overlay_of true p.overlay window.now) (segments_of true p.count back.now) (blank state.latch))) else list.old) }
{
    if certain {
        draw_sure(settings, mem, state, p, back, window, buffer, at, list)
    } else {
        row::draw_planned(settings, mem, state, p, back, window, buffer)
    }
}

// A planned row that is sure: its cells are drawn in the buffer, and the addresses of their words noted after those of the plan, which stand
// from the place `at` on.
fn draw_sure(
    settings: Settings,
    mem: &[u16],
    state: State,
    p: PlanHead,
    back: &[u16; 75],
    window: &[u16; 75],
    buffer: &mut [u32],
    at: u32,
    list: &mut [u32],
) -> Result<DrawnRow, Refusal>
    requires buffer_len { (length buffer.old ≡ 132) × (given p.words (plan_of settings.linear p back.now window.now) ≡ run mem.now (plan settings state.fields)) }
    requires back_value { (sure_row settings.hidden state.fields.fill.flag mem.now (overlay_of true p.overlay window.now) (segments_of true p.count back.now) ≡ true) × (at ≤ 13) }
    ensures few_words { FewWords result × (is_accepted result ≡ true) }
    ensures buffer_after { called result buffer.new ≡ answered settings state.fields buffer.old (run mem.now (row settings state)) }
    ensures list_after { list.new ≡ sets list.old (at + p.words) (asked mem.now (row_cells (code_settings settings) state.fields.fill (overlay_of true p.overlay window.now) (segments_of true p.count back.now) (blank state.latch))) }
{
    let fields = state.fields;
    let fill = fields.fill;
    let overlay = p.overlay;
    let count = p.count;
    let code = row::code_settings(settings);
    let drawn = sure::draw_cells(
        mem,
        code,
        fill,
        overlay,
        back,
        count,
        window,
        state.latch,
        at + p.words,
        buffer,
        list,
    );
    row::mark_cursor(settings, fields, buffer);
    row::row_answer(fields.row, p, drawn.pen.latch, drawn.words - at)
}
