#![tactic(auto)]
// The plan of a row: what it is drawn from, before any cell.
ghost use Rattle.std.specs.Prelude.{◌≡◌, true, ◌<◌};
ghost use Rattle.memory.specs.Reading.{fault, run};
ghost use Rattle.state.specs.State.{in_range};
ghost use Rattle.plan.specs.Plan.{lines_taken, next_fields, from_blocks, from_state, plan};
ghost use Rattle.plan.specs.Answers.{plan_answer};

use background::BackgroundRead;
use blocks::{Cursor, FillMode, RowFormat, SegmentCount};
use layout::overlay::OverlayRead;
use layout::{OverlayHead, overlay};
use memory::{Fault, Pointer};
use settings::Settings;
use state::Fields;
use windows::{Window, WindowRead};

// A row's plan but for the segments: `count` of the background's, and the words read.
#[derive(Clone, Copy)]
pub struct PlanHead {
    pub lines: u16,
    pub format: RowFormat,
    pub count: SegmentCount,
    pub overlay: Option<OverlayHead>,
    pub next: Fields,
    pub words: u32,
}

// The plan of a row, with the words of its background segments in `back` and of its window's in `over`.
pub fn plan_row(
    mem: &[u16],
    settings: Settings,
    fields: Fields,
    back: &mut [u16; 75],
    over: &mut [u16; 75],
) -> Result<PlanHead, Fault>
    ensures { plan_answer settings.linear result back.new over.new ≡ run mem.now (plan settings fields) }
{
    settings::check_settings(settings)?;
    let linear = written_linear(settings);
    plan_state(mem, linear, fields, back, over)
}

// The same settings, with `linear` written out: what is called with them is compiled for linear memory alone.
fn written_linear(settings: Settings) -> Settings
    requires { settings.linear ≡ true }
    ensures { result ≡ settings }
{
    let mut linear = settings;
    linear.linear = true;
    linear
}

// The plan of a row whose settings are checked: checks 3 and 4 on the state.
pub fn plan_state(
    mem: &[u16],
    settings: Settings,
    fields: Fields,
    back: &mut [u16; 75],
    over: &mut [u16; 75],
) -> Result<PlanHead, Fault>
    ensures { plan_answer settings.linear result back.new over.new ≡ run mem.now (from_state settings fields) }
{
    if !state::in_range(fields) {
        return refused(3);
    }
    if fields.left == 0 {
        return refused(4);
    }
    plan_blocks(mem, settings, fields, back, over)
}

// The plan of a row whose settings and state are checked: its blocks.
fn plan_blocks(
    mem: &[u16],
    settings: Settings,
    fields: Fields,
    back: &mut [u16; 75],
    over: &mut [u16; 75],
) -> Result<PlanHead, Fault>
    requires { (in_range fields ≡ true) × (fields.row < 4095) }
    ensures { plan_answer settings.linear result back.new over.new ≡ run mem.now (from_blocks settings fields) }
{
    let in_hand = fields.window;
    let WindowRead { window, words } = windows::due_window(
        mem,
        settings.linear,
        fields.row,
        in_hand,
    )?;
    let BackgroundRead { block, format } = background::background_row(mem, settings, fields, back)?;
    let OverlayRead {
        overlay,
        window,
        words: more,
    } = overlay::overlay_row(mem, settings, fields.row, window, over)?;
    let count = block.count;
    if overlay::edges_fit(settings.linear, settings.hidden, overlay, back, count) {
        let link = block.link;
        let next = next_fields(fields, format, link, window);
        Ok(PlanHead {
            lines: lines_taken(format, fields.left),
            format,
            count,
            overlay,
            next,
            words: words + block.words + more,
        })
    } else {
        refused(12)
    }
}

// The refusal of a check.
fn refused(number: u8) -> Result<PlanHead, Fault>
    ensures { result ≡ Err (fault number) }
{
    Err(memory::fault_of(number))
}

// The lines that a row takes of those left.
fn lines_taken(format: RowFormat, left: u16) -> u16
    ensures { result ≡ lines_taken format left }
{
    left.min(format.lines as u16)
}

// The fields of the next state, whose row block is at `link`.
fn next_fields(f: Fields, format: RowFormat, link: Pointer, window: Option<Window>) -> Fields
    requires { f.row < 4095 }
    ensures { result ≡ next_fields f format link window }
{
    // field by field: each is read as it was written
    let cursor = Cursor {
        x: f.cursor.x,
        y: f.cursor.y,
    };
    let fill = FillMode {
        code: f.fill.code,
        flag: f.fill.flag,
    };
    Fields {
        row: f.row + 1,
        left: f.left - lines_taken(format, f.left),
        cursor,
        fill,
        format,
        next: link,
        window,
    }
}
