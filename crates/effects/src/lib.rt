#![tactic(auto)]
// Effects of rows, with what the calls on them leave in their slices of numbers. Each gives the call's status.
ghost use Rattle.std.specs.Prelude.{◌≡◌};
ghost use Rattle.effect.specs.Effect.{effect_call};
ghost use Rattle.joining.specs.Join.{apply};
ghost use Rattle.answers.specs.AfterCall.{answered, stated};
ghost use Rattle.effects.specs.AfterEffect.{stepped, after_effect, after_apply};

use joining::Effect;
use settings::Settings;
use state::{Fields, State};

pub mod decode; // an effect from numbers
pub mod encode; // an effect as numbers

// The effect of a row, in `effect`; the next state's fields but the latch, in `state`.
pub fn next_effect(
    settings: Settings,
    memory: &[u16],
    from: State,
    state: &mut [u32; 23],
    effect: &mut [u32; 12],
) -> u8
    ensures { stated result state.new effect.new ≡ after_effect from.latch state.old (effect_call settings memory.now from.fields) }
{
    let fields = from.fields;
    let answer = effect::row_effect(settings, memory, fields);
    let e = answer.effect;
    let next = answer.next;
    step(from.latch, next, state);
    encode::write_effect(e, effect);
    0
}

// The next state's fields, where the effect came with them.
fn step(latch: u16, next: Option<Fields>, state: &mut [u32; 23])
    ensures { state.new ≡ stepped latch state.old next }
{
    if let Some(fields) = next {
        numbers::encode::write_state(State { latch, fields }, state);
    }
}

// An effect applied to a latch: the latch that it makes, in `answer`.
pub fn applied(effect: Effect, latch: u16, answer: &mut [u32; 4]) -> u8
    ensures { answered result answer.new ≡ after_apply answer.old (apply effect latch) }
{
    match effect.apply(latch) {
        Ok(l) => {
            answers::encode::write_number(l as u32, answer);
            0
        }
        Err(r) => answers::encode::refuse(r, answer),
    }
}
