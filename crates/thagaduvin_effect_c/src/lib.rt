#![tactic(auto)]
// A console's calls on effects of rows in C (libthagaduvin_effect.a): each is the library's, with its clause.
ghost use Rattle.std.specs.Prelude.{◌≡◌};
ghost use Rattle.answers.specs.AfterCall.{answered, stated};
ghost use Rattle.thagaduvin_effect.specs.EffectCalls.{host_effect, host_join, host_apply};

// The effect of the next row, in `effect`; the next state's fields but the latch, in `state`.
#[unsafe(no_mangle)]
pub extern "C" fn thagaduvin_effect(
    settings: &[u32],
    memory: &[u16],
    state: &mut [u32],
    effect: &mut [u32],
) -> u8
    ensures { stated result state.new effect.new ≡ host_effect settings.now memory.now state.old effect.old }
{
    thagaduvin_effect::thagaduvin_effect(settings, memory, state, effect)
}

// The effect `first`, and then `second`, in `joined`.
#[unsafe(no_mangle)]
pub extern "C" fn thagaduvin_join(first: &[u32], second: &[u32], joined: &mut [u32]) -> u8
    ensures { answered result joined.new ≡ host_join first.now second.now joined.old }
{
    thagaduvin_effect::thagaduvin_join(first, second, joined)
}

// The latch that an effect makes of `latch`, in `answer`.
#[unsafe(no_mangle)]
pub extern "C" fn thagaduvin_apply(effect: &[u32], latch: u16, answer: &mut [u32]) -> u8
    ensures { answered result answer.new ≡ host_apply effect.now latch answer.old }
{
    thagaduvin_effect::thagaduvin_apply(effect, latch, answer)
}
