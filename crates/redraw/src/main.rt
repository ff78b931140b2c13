#![tactic(auto)]
// Rows drawn alone: each frame is drawn in turn, and then each of its rows again, in another order, from the effects of the
// rows above it. Every line that is written says whether the row alone is the one drawn in turn.
ghost use Rattle.std.specs.Prelude.{◌≡◌};
ghost use Rattle.joining.specs.Join.{empty};

use joining::Effect;
use memory::Refusal;
use row::DrawnRow;
use settings::Settings;
use state::{Fields, State};
use std::io;

mod frames; // the frames in memory
mod report; // what is written

// An accepted row: its answer and its cells.
#[derive(Clone, Copy, PartialEq, Eq)]
struct Drawn {
    row: DrawnRow,
    cells: [u32; 132],
}

// A call of a frame drawn in turn: its outcome; and what its row is drawn from alone, the fields reached and the effects of the
// rows above, joined.
#[derive(Clone, Copy)]
struct Turn {
    outcome: Result<Drawn, Refusal>,
    fields: Fields,
    above: Effect,
}

fn main(rt: HostRuntime) -> io::Result<()> {
    let mem = frames::words();
    let mut count = report::Count {
        same: 0,
        differing: 0,
    };
    for n in 0..5 {
        count = redraw_frame(&rt, n, &mem, count)?;
    }
    report::total(&rt, count)
}

// A frame drawn in turn, and then each of its rows alone.
fn redraw_frame(
    rt: &impl Print,
    n: u16,
    mem: &[u16],
    count: report::Count,
) -> io::Result<report::Count> {
    report::frame(rt, n)?;
    let settings = frames::settings(n);
    match start::start(settings, mem, frames::latch(n)) {
        Err(r) => {
            report::refused(rt, r)?;
            Ok(count)
        }
        Ok(s) => {
            let first = s.state;
            let turns = draw_in_turn(settings, mem, first);
            redraw_rows(rt, settings, mem, first.latch, turns, count)
        }
    }
}

// Eight calls, each from the state that the one before gave or left.
fn draw_in_turn(settings: Settings, mem: &[u16], first: State) -> [Turn; 8] {
    let mut state = first;
    let mut fields = first.fields;
    let mut above = none_above();
    std::array::from_fn(|_| {
        let outcome = draw_row(settings, mem, state, [0; 132]);
        let turn = Turn {
            outcome,
            fields,
            above,
        };
        if let Ok(drawn) = outcome {
            state = drawn.row.next;
        }
        let e = effect::row_effect(settings, mem, fields);
        above = above.join(e.effect);
        fields = e.next.unwrap_or(fields);
        turn
    })
}

// The effects of no rows, joined.
fn none_above() -> Effect
    ensures { result ≡ empty }
{
    Effect::EMPTY
}

// Each of the eight rows alone, in the order of a linear congruential generator.
fn redraw_rows(
    rt: &impl Print,
    settings: Settings,
    mem: &[u16],
    latch: u16,
    turns: [Turn; 8],
    count: report::Count,
) -> io::Result<report::Count> {
    let mut count = count;
    let mut call = 7;
    for _ in 0..8u32 {
        call = (call * 5 + 3) % 8;
        let t = turns[call];
        let alone = draw_alone(settings, mem, latch, t.fields, t.above);
        count = report::row(rt, call, alone == t.outcome, alone, count)?;
    }
    Ok(count)
}

// A row into a buffer.
fn draw_row(
    settings: Settings,
    mem: &[u16],
    state: State,
    buffer: [u32; 132],
) -> Result<Drawn, Refusal> {
    let mut cells = buffer;
    let row = row::row(settings, mem, state, &mut cells)?;
    Ok(Drawn { row, cells })
}

// A row alone: from the first latch, the fields reached and the effects of the rows above.
fn draw_alone(
    settings: Settings,
    mem: &[u16],
    latch: u16,
    fields: Fields,
    above: Effect,
) -> Result<Drawn, Refusal> {
    let latch = above.apply(latch)?;
    draw_row(settings, mem, State { latch, fields }, [0xFFFFFF; 132])
}
