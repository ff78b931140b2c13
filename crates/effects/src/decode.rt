// An effect, from numbers at their places.
ghost use Rattle.std.specs.Prelude.{◌≡◌, ◌≤◌};
ghost use Rattle.numbers.specs.Places.{Within};
ghost use Rattle.effects.specs.EffectNumbers.{effect_limits, part_at, effect_at, of_effect, part_written, effect_written, effect_in};

use joining::{Effect, Part};
use memory::Refusal;
use numbers::decode;

// An effect from 12 numbers, each within its limit, that the effect call writes.
#[tactic(auto, unfolding(crate::specs::EffectNumbers::effect_in))]
pub fn effect_in(numbers: &[u32]) -> Option<Effect>
    ensures { result ≡ effect_in numbers.now }
{
    let limits = [
        17u32, // with ignore clear: refusal
        4294967295, // its row
        4294967295, // its address
        4294967295, // where its pointer begins
        1, // set
        65535, // word
        17, // with ignore set: refusal
        4294967295, // its row
        4294967295, // its address
        4294967295, // where its pointer begins
        1, // set
        65535, // word
    ];
    if decode::within(&limits, numbers) {
        effect_written(numbers)
    } else {
        None
    }
}

// A part from its numbers: a refusal where its number is not 0, else a set or a keep.
fn part_at(number: u32, row: u32, address: u32, from: u32, sets: u32, word: u32) -> Part
    requires { (number ≤ 255) × (word ≤ 65535) }
    ensures { result ≡ part_at number row address from sets word }
{
    if number != 0 {
        return Part::Refuse(Refusal {
            number: number as u8,
            row,
            address,
            from,
        });
    }
    if sets == 1 {
        Part::Set(word as u16)
    } else {
        Part::Keep
    }
}

// An effect, where both parts are as the effect call writes them.
#[tactic(auto, unfolding(crate::specs::EffectNumbers::effect_written))]
fn effect_written(n: &[u32]) -> Option<Effect>
    requires { Within effect_limits n.now }
    ensures { result ≡ effect_written n.now }
{
    let clear = part_written(n[0], n[1], n[2], n[3], n[4], n[5]);
    let set = part_written(n[6], n[7], n[8], n[9], n[10], n[11]);
    if clear & set {
        Some(effect_at(n))
    } else {
        None
    }
}

// Are these the numbers that the effect call writes for a part?
fn part_written(number: u32, row: u32, address: u32, from: u32, sets: u32, word: u32) -> bool
    ensures { result ≡ part_written number row address from sets word }
{
    if number == 0 {
        (row == 0) & (address == 0) & (from == 0) & ((sets == 1) | (word == 0))
    } else {
        of_effect(number) & ((number == 7) | (from == 0)) & (sets == 0) & (word == 0)
    }
}

// Can the effect of a row have this refusal?
fn of_effect(n: u32) -> bool
    ensures { result ≡ of_effect n }
{
    ((2 <= n) & (n <= 4)) | ((7 <= n) & (n <= 13)) | (n == 17)
}

// An effect from its numbers.
#[tactic(auto, unfolding(crate::specs::EffectNumbers::effect_at))]
fn effect_at(n: &[u32]) -> Effect
    requires { Within effect_limits n.now }
    ensures { result ≡ effect_at n.now }
{
    let clear = part_at(n[0], n[1], n[2], n[3], n[4], n[5]);
    let set = part_at(n[6], n[7], n[8], n[9], n[10], n[11]);
    Effect { clear, set }
}
