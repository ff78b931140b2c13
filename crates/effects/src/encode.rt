// An effect as numbers at their places.
ghost use Rattle.std.specs.Prelude.{◌≡◌};
ghost use Rattle.effects.specs.EffectNumbers.{part_numbers, effect_numbers};

use joining::{Effect, Part};

// A part's numbers: number, row and address of its refusal, and where its pointer begins; whether it sets the latch, and the word.
#[derive(Drop)]
pub(crate) struct PartNumbers {
    number: u32,
    row: u32,
    address: u32,
    from: u32,
    sets: u32,
    word: u32,
}

// An effect's numbers: those of the part for ignore clear, then of the one for ignore set.
#[tactic(auto, unfolding(crate::specs::EffectNumbers::effect_numbers))]
pub fn write_effect(effect: Effect, into: &mut [u32; 12])
    ensures { into.new ≡ effect_numbers effect }
{
    let clear = effect.clear;
    let set = effect.set;
    let c = part_numbers(clear);
    let s = part_numbers(set);
    *into = [
        c.number, c.row, c.address, c.from, c.sets, c.word, s.number, s.row, s.address, s.from,
        s.sets, s.word,
    ];
}

// A part's numbers: what the part does not use is 0.
fn part_numbers(part: Part) -> PartNumbers
    ensures { result ≡ part_numbers part }
{
    match part {
        Part::Keep => PartNumbers {
            number: 0,
            row: 0,
            address: 0,
            from: 0,
            sets: 0,
            word: 0,
        },
        Part::Set(w) => PartNumbers {
            number: 0,
            row: 0,
            address: 0,
            from: 0,
            sets: 1,
            word: w as u32,
        },
        Part::Refuse(r) => PartNumbers {
            number: r.number as u32,
            row: r.row,
            address: r.address,
            from: r.from,
            sets: 0,
            word: 0,
        },
    }
}
