// The start and the rows of a frame, walked.
ghost use Rattle.std.specs.Prelude.{◌≡◌, false, length, replicate, IfOk};
ghost use Rattle.memory.specs.Reading.{given, run};
ghost use Rattle.start.specs.Top.{top_block};
ghost use Rattle.plan.specs.Plan.{from_state};
ghost use Rattle.plan.specs.Answers.{plan_of, plan_answer};
ghost use Rattle.row.specs.Row.{code_settings, from_plan};
ghost use Rattle.converter.specs.Walk.{walk};
ghost use Rattle.converter.specs.Below.{row_below};
ghost use Rattle.converter.specs.Converter.{follow_rows, follow_window, follow};
ghost use Rattle.marking.specs.Answers.{Kept, Narrow};
ghost use Rattle.following.specs.Answers.{state_of_walk, row_walked, followed};

use crate::lists;
use blocks::MainBlock;
use codes::CodeSettings;
use marking::marked::Marked;
use marking::row_cells::{CellSettings, RowSegments};
use memory::{Fault, Refusal};
use plan::PlanHead;
use settings::Settings;
use state::{Fields, State};

// A segmented frame from a latch, from marks that are all 0: the main block, by TOP, and on.
pub fn follow(settings: Settings, mem: &[u16], marks: &mut [u8], latch: u16) -> Result<(), Refusal>
    requires { (marks.old ≡ replicate (length mem.now) 0) × (settings.linear ≡ false) }
    ensures { followed result marks.new ≡ follow latch settings mem.now }
{
    let mut marked = Marked { mem, marks };
    let top = settings.top;
    memory::told_in(0, lists::mark_top(&mut marked, settings.linear, top))?;
    let main = memory::told_in(0, start::top_block(mem, settings.linear, top))?;
    follow_window(settings, &mut marked, latch, main)
}

// The first window, by TOW, and the rows from there.
fn follow_window(
    settings: Settings,
    marked: &mut Marked,
    latch: u16,
    main: MainBlock,
) -> Result<(), Refusal>
    requires { (settings.linear ≡ false) × (given 7 main ≡ run marked.old.mem.now (top_block settings.linear settings.top)) }
    ensures kept { Kept marked.old marked.new }
    ensures followed { followed result marked.new.marks.now ≡ follow_window latch settings marked.old.mem.now marked.old.marks.now main }
{
    let tow = memory::pointer_of(settings.linear, 0, settings.tow.first, settings.tow.second);
    memory::told_in(
        0,
        lists::mark_window(marked, settings.linear, tow.address, tow),
    )?;
    let started = start::start_main(settings, marked.mem, latch)?;
    follow_rows(settings, marked, started.state)
}

// Rows until no line is left: each takes one or more, so that as many rows as lines are enough.
fn follow_rows(settings: Settings, marked: &mut Marked, state: State) -> Result<(), Refusal>
    ensures kept { Kept marked.old marked.new }
    ensures followed { followed result marked.new.marks.now ≡ follow_rows state.fields.left settings marked.old.mem.now marked.old.marks.now state }
{
    let mut current = state;
    for _ in 0..state.fields.left {
        if current.fields.left == 0 {
            return Ok(());
        }
        let walked = walk_row(settings, marked, current);
        current = memory::told_in(current.fields.row, walked)?;
    }
    Ok(())
}

// One row: the words of its blocks, its plan, then its cells.
fn walk_row(settings: Settings, marked: &mut Marked, state: State) -> Result<State, Fault>
    ensures kept { Kept marked.old marked.new }
    ensures walked { row_walked result marked.new.marks.now ≡ state_of_walk (walk 0 marked.old.mem.now marked.old.marks.now (row_below settings state)) }
{
    lists::mark_state(marked, settings, state.fields)?;
    let mut back = [0u16; 75];
    let mut over = [0u16; 75];
    let p = plan_row(marked.mem, settings, state.fields, &mut back, &mut over)?;
    walk_planned(settings, marked, state, p, &back, &over)
}

// The plan of a row, whose window has its columns within the row.
fn plan_row(
    mem: &[u16],
    settings: Settings,
    fields: Fields,
    back: &mut [u16; 75],
    over: &mut [u16; 75],
) -> Result<PlanHead, Fault>
    ensures planned { plan_answer settings.linear result back.new over.new ≡ run mem.now (from_state settings fields) }
    ensures narrow { IfOk result (λ p. Narrow p.overlay) }
{
    plan::plan_state(mem, settings, fields, back, over)
}

// The cells of a planned row.
fn walk_planned(
    settings: Settings,
    marked: &mut Marked,
    state: State,
    p: PlanHead,
    back: &[u16; 75],
    over: &[u16; 75],
) -> Result<State, Fault>
    requires { Narrow p.overlay }
    ensures kept { Kept marked.old marked.new }
    ensures walked { row_walked result marked.new.marks.now ≡ state_of_walk (walk 0 marked.old.mem.now marked.old.marks.now (from_plan settings state.fields.fill state.latch (plan_of settings.linear p back.now over.now))) }
{
    let cell_settings = CellSettings {
        codes: code_settings(settings),
        fill: state.fields.fill,
    };
    let segments = RowSegments {
        words: back,
        count: p.count,
    };
    let pen = marked.walk_cells(cell_settings, p.overlay, segments, over, state.latch)?;
    Ok(State {
        latch: pen.latch,
        fields: p.next,
    })
}

// The settings that the cells of a row are read by.
fn code_settings(settings: Settings) -> CodeSettings
    ensures { result ≡ code_settings settings }
{
    CodeSettings {
        linear: settings.linear,
        hidden: settings.hidden,
        flag: settings.flag,
    }
}
