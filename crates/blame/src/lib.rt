#![tactic(auto)]
// Which pointer a refusal of a frame blames: a frame is drawn, its cells are not kept.
ghost use Rattle.std.specs.Prelude.{◌≡◌, ◌||◌, eqb};
ghost use Rattle.memory.specs.Reading.{given, run};
ghost use Rattle.blocks.specs.Answers.{main_read};
ghost use Rattle.plan.specs.Plan.{plan};
ghost use Rattle.plan.specs.Answers.{plan_of};
ghost use Rattle.row.specs.Row.{row};
ghost use Rattle.blame.specs.Blame.{leader, blamed, mendable, refused_row, rows, main_of, verdict};
ghost use Rattle.blame.specs.Answers.{walked};

use blocks::MainBlock;
use memory::{Fault, Refusal};
use plan::PlanHead;
use settings::Settings;
use state::State;
use windows::Window;

// Where the two words of a pointer stand: in the register TOW, or in memory from an address on.
#[derive(Clone, Copy)]
pub enum Place {
    Register,
    Memory(u32),
}

// What drawing a frame comes to: all its rows, the number of a refusal with the pointer to blame for it, or a refusal that is given as it
// is.
#[derive(Clone, Copy)]
pub enum Verdict {
    Whole,
    Blamed { place: Place, number: u8 },
    Refused(Refusal),
}

// What drawing a frame from a latch comes to.
pub fn frame_verdict(settings: Settings, mem: &[u16], latch: u16) -> Verdict
    ensures { result ≡ verdict latch settings mem.now }
{
    if let Err(fault) = main_of(settings, mem) {
        return Verdict::Refused(memory::refusal_of(0, fault));
    }
    match start::start(settings, mem, latch) {
        Err(refusal) => Verdict::Blamed {
            place: Place::Register,
            number: refusal.number,
        },
        Ok(started) => walk_rows(settings, mem, started.state),
    }
}

// A start up to its main block, or the refusal that it meets there.
fn main_of(settings: Settings, mem: &[u16]) -> Result<MainBlock, Fault>
    ensures { main_read result ≡ run mem.now (main_of settings) }
{
    settings::check_settings(settings)?;
    start::top_block(mem, settings.linear, settings.top)
}

// The rows of a frame, from the state of its start.
fn walk_rows(settings: Settings, mem: &[u16], first: State) -> Verdict
    ensures { result ≡ rows settings mem.now Place.Register first }
{
    let mut led = Place::Register;
    let mut state = first;
    while 0 < state.fields.left {
        let row = state.fields.row;
        led = leader(row, state.fields.window, led);
        state = match walk_row(settings, mem, state) {
            Ok(next) => next,
            Err(fault) => return judged(led, row, fault),
        };
    }
    Verdict::Whole
}

// The refusal of a row, with the pointer to blame for it.
fn judged(led: Place, row: u32, fault: Fault) -> Verdict
    ensures { result ≡ refused_row «led» row fault }
{
    if is_mendable(fault.number) {
        Verdict::Blamed {
            place: blamed(led, fault),
            number: fault.number,
        }
    } else {
        Verdict::Refused(memory::refusal_of(row, fault))
    }
}

// Is the number one of those that blame a pointer?
fn is_mendable(number: u8) -> bool
    ensures { result ≡ mendable number }
{
    matches!(number, 7..=13)
}

// The pointer that led to the window in hand on a row.
fn leader(row: u32, window: Option<Window>, led: Place) -> Place
    ensures { result ≡ leader row «window» «led» }
{
    match window {
        Some(w) if (w.block.bottom as u32) < row => Place::Memory(w.block.link.from),
        _ => led,
    }
}

// The pointer to blame for a row's refusal.
fn blamed(led: Place, fault: Fault) -> Place
    ensures { result ≡ blamed «led» fault }
{
    if of_window(fault.number) {
        led
    } else {
        Place::Memory(fault.from)
    }
}

// Is the number 11 or 12?
fn of_window(number: u8) -> bool
    ensures { result ≡ eqb number 11 || eqb number 12 }
{
    matches!(number, 11 | 12)
}

// A row of a frame, without its cells: the state after it, or its refusal.
fn walk_row(settings: Settings, mem: &[u16], state: State) -> Result<State, Fault>
    ensures { result ≡ walked (run mem.now (row settings state)) }
{
    let mut back = [0u16; 75];
    let mut window = [0u16; 75];
    let p = plan::plan_row(mem, settings, state.fields, &mut back, &mut window)?;
    walk_cells(settings, mem, state, p, &back, &window)
}

// The cells of a planned row, which are not kept.
fn walk_cells(
    settings: Settings,
    mem: &[u16],
    state: State,
    p: PlanHead,
    back: &[u16; 75],
    window: &[u16; 75],
) -> Result<State, Fault>
    requires { given p.words (plan_of settings.linear p back.now window.now) ≡ run mem.now (plan settings state.fields) }
    ensures { result ≡ walked (run mem.now (row settings state)) }
{
    let code = row::code_settings(settings);
    let mut cells = [0u32; 132];
    let drawn = cells::draw_cells(
        mem,
        code,
        state.fields.fill,
        p.overlay,
        back,
        p.count,
        window,
        state.latch,
        p.words,
        &mut cells,
    )?;
    Ok(State {
        latch: drawn.latch,
        fields: p.next,
    })
}
