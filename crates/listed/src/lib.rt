#![tactic(auto)]
// Starts and rows with a list of the addresses that they read, in order.
ghost use Rattle.std.specs.Prelude.{◌≡◌, ◌≤◌, length};
ghost use Rattle.memory.specs.Reading.{given, run, asked};
ghost use Rattle.plan.specs.Plan.{plan};
ghost use Rattle.plan.specs.Answers.{plan_of};
ghost use Rattle.row.specs.Row.{row, called, answered, FewWords};
ghost use Rattle.listed.specs.Listed.{start_with, start_listed, row_with, row_listed};
ghost use Rattle.listed.specs.Answers.{placed};

use memory::Refusal;
use plan::PlanHead;
use row::DrawnRow;
use settings::Settings;
use start::Started;
use state::State;

mod drawing; // a planned row, sure or not

// The start of a frame, its addresses in `list`; or refusal 25, or that of the start, which leave the list as it was.
pub fn start(
    settings: Settings,
    mem: &[u16],
    latch: u16,
    list: &mut [u32],
) -> Result<Started, Refusal>
    ensures { start_with result list.new ≡ start_listed latch settings mem.now list.old }
{
    if list.len() != 12000 {
        return memory::refused(25);
    }
    let started = start::start(settings, mem, latch)?;
    addresses::put_start(settings, list);
    Ok(started)
}

// The next row, its cells in `buffer` and its addresses in `list`; or a refusal, which leaves both as they were.
pub fn row(
    settings: Settings,
    mem: &[u16],
    state: State,
    buffer: &mut [u32],
    list: &mut [u32],
) -> Result<DrawnRow, Refusal>
    ensures few_words { FewWords result }
    ensures list_after { row_with result buffer.new list.new ≡ row_listed settings mem.now state buffer.old list.old }
{
    let fields = state.fields;
    if buffer.len() != 132 {
        return Err(memory::refusal_of(fields.row, memory::fault_of(1)));
    }
    if list.len() != 12000 {
        return Err(memory::refusal_of(fields.row, memory::fault_of(25)));
    }
    row_at(settings, mem, state, buffer, 0, list)
}

// A row whose buffer and list are right, its addresses from the place `at` on.
pub fn row_at(
    settings: Settings,
    mem: &[u16],
    state: State,
    buffer: &mut [u32],
    at: usize,
    list: &mut [u32],
) -> Result<DrawnRow, Refusal>
    requires { (length buffer.old ≡ 132) × (length list.old ≡ 12000) × (at ≤ 13) }
    ensures few_words { FewWords result }
    ensures buffer_after { called result buffer.new ≡ answered settings state.fields buffer.old (run mem.now (row settings state)) }
    ensures list_after { list.new ≡ placed result at (asked mem.now (row settings state)) list.old }
{
    let fields = state.fields;
    let mut back = [0u16; 75];
    let mut window = [0u16; 75];
    let plan = plan::plan_row(mem, settings, fields, &mut back, &mut window);
    let p = memory::told_in(fields.row, plan)?;
    planned_at(settings, mem, state, p, &back, &window, buffer, at, list)
}

// A planned row: drawn, with the addresses of its cells' words where it is sure. Once it is accepted those of its blocks are written, and
// those of its cells where it is not sure.
fn planned_at(
    settings: Settings,
    mem: &[u16],
    state: State,
    p: PlanHead,
    back: &[u16; 75],
    window: &[u16; 75],
    buffer: &mut [u32],
    at: usize,
    list: &mut [u32],
) -> Result<DrawnRow, Refusal>
    requires buffer_len { (length buffer.old ≡ 132) × (given p.words (plan_of settings.linear p back.now window.now) ≡ run mem.now (plan settings state.fields)) }
    requires list_len { (length list.old ≡ 12000) × (at ≤ 13) }
    ensures few_words { FewWords result }
    ensures buffer_after { called result buffer.new ≡ answered settings state.fields buffer.old (run mem.now (row settings state)) }
    ensures list_after { list.new ≡ placed result at (asked mem.now (row settings state)) list.old }
{
    let fields = state.fields;
    let fill = fields.fill;
    let overlay = p.overlay;
    let count = p.count;
    let code = row::code_settings(settings);
    let certain = sure::known::is_sure(mem, code, fill, overlay, back, count, window);
    let drawn = drawing::draw(
        certain, settings, mem, state, p, back, window, buffer, at as u32, list,
    )?;
    addresses::put_row(
        mem, code, fields, overlay, back, count, window, buffer, certain, at, list,
    );
    Ok(drawn)
}
