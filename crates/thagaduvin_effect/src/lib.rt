#![tactic(auto)]
// A console's calls on effects of rows (libthagaduvin_effect.a), over slices and with statuses as thagaduvin's. They stand apart from
// libthagaduvin.a so that its rows keep their time: an effect has the plan of a row in it once more.
ghost use Rattle.std.specs.Prelude.{◌≡◌};
ghost use Rattle.answers.specs.AfterCall.{answered, stated};
ghost use Rattle.thagaduvin_effect.specs.EffectCalls.{host_effect, host_join, host_apply};

use effects::encode;
use numbers::decode;

// The effect of the next row, in `effect`; the next state's fields but the latch, in `state`.
#[tactic(auto, unfolding(crate::specs::EffectCalls::host_effect, numbers::specs::Decode::is_state, numbers::specs::Decode::state_in))]
pub fn thagaduvin_effect(
    settings: &[u32],
    memory: &[u16],
    state: &mut [u32],
    effect: &mut [u32],
) -> u8
    ensures { stated result state.new effect.new ≡ host_effect settings.now memory.now state.old effect.old }
{
    let Some(effect) = effect.as_mut_array() else {
        return 255;
    };
    let Some(s) = decode::settings_in(settings) else {
        return 255;
    };
    let Some(state) = state.as_mut_array() else {
        return 255;
    };
    match decode::state_from(state) {
        Some(t) => effects::next_effect(s, memory, t, state, effect),
        None => 255,
    }
}

// The effect `first`, and then `second`, in `joined`.
#[tactic(auto, unfolding(crate::specs::EffectCalls::host_join))]
pub fn thagaduvin_join(first: &[u32], second: &[u32], joined: &mut [u32]) -> u8
    ensures { answered result joined.new ≡ host_join first.now second.now joined.old }
{
    let Some(joined) = joined.as_mut_array() else {
        return 255;
    };
    let Some(d) = effects::decode::effect_in(first) else {
        return 255;
    };
    let Some(e) = effects::decode::effect_in(second) else {
        return 255;
    };
    encode::write_effect(d.join(e), joined);
    0
}

// The latch that an effect makes of `latch`, in `answer`.
#[tactic(auto, unfolding(crate::specs::EffectCalls::host_apply))]
pub fn thagaduvin_apply(effect: &[u32], latch: u16, answer: &mut [u32]) -> u8
    ensures { answered result answer.new ≡ host_apply effect.now latch answer.old }
{
    let Some(answer) = answer.as_mut_array() else {
        return 255;
    };
    match effects::decode::effect_in(effect) {
        Some(e) => effects::applied(e, latch, answer),
        None => 255,
    }
}
