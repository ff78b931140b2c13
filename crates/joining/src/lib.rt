#![tactic(auto)]
// Effects of rows on the latch, joined and applied.
ghost use Rattle.std.specs.Prelude.{◌≡◌};
ghost use Rattle.joining.specs.Join.{empty, part_for, set_then, join_part, join, apply};

use memory::Refusal;

// What a row does to the latch: keep it, set it to a word, or refuse.
#[derive(Clone, Copy)]
pub enum Part {
    Keep,
    Set(u16),
    Refuse(Refusal),
}

// A row effect: its part for an incoming latch with ignore clear, and the one with ignore set.
#[derive(Clone, Copy)]
pub struct Effect {
    pub clear: Part,
    pub set: Part,
}

impl Effect {
    // The empty effect: it keeps in both parts.
    pub const EMPTY: Effect = Effect {
        clear: Part::Keep,
        set: Part::Keep,
    };

    // The empty effect, which joining starts from.
    pub fn start() -> Effect
        ensures { result ≡ empty }
    {
        Effect::EMPTY
    }

    // This effect, and then `next`.
    pub fn join(self, next: Effect) -> Effect
        ensures { result ≡ join self next }
    {
        Effect {
            clear: join_part(self.clear, false, next),
            set: join_part(self.set, true, next),
        }
    }

    // What the effect makes of a latch.
    pub fn apply(self, latch: u16) -> Result<u16, Refusal>
        ensures { result ≡ apply self latch }
    {
        match part_for(memory::bit_13(latch), self) {
            Part::Keep => Ok(latch),
            Part::Set(w) => Ok(w),
            Part::Refuse(r) => Err(r),
        }
    }
}

// The part for an incoming latch, by its ignore.
fn part_for(ignore: bool, e: Effect) -> Part
    ensures { result ≡ part_for ignore e }
{
    if ignore { e.set } else { e.clear }
}

// A part, for an incoming latch of this ignore, and then an effect.
fn join_part(p: Part, ignore: bool, next: Effect) -> Part
    ensures { result ≡ join_part p ignore next }
{
    match p {
        Part::Refuse(_) => p,
        Part::Keep => part_for(ignore, next),
        Part::Set(w) => {
            let ignores = memory::bit_13(w);
            set_then(w, part_for(ignores, next))
        }
    }
}

// The latch set to a word, and then a part.
fn set_then(w: u16, p: Part) -> Part
    ensures { result ≡ set_then w p }
{
    match p {
        Part::Keep => Part::Set(w),
        later => later,
    }
}
