// The totals and a row's figures as numbers at fixed places of lent slices.
ghost use Rattle.std.specs.Prelude.{◌≡◌};
ghost use Rattle.bus.specs.Numbers.{totals_at, totals_numbers, called, after_bus};

use crate::{Reported, Totals};

// A row's report, in the slices of its call; the call's status.
pub fn write_report(r: Reported, totals: &mut [u64; 7], answer: &mut [u64; 2]) -> u8
    ensures { called result totals.new answer.new ≡ after_bus totals.old answer.old r }
{
    match r.answer {
        Ok(f) => {
            write_totals(r.totals, totals);
            *answer = [f.bursts, f.released];
            0
        }
        Err(refusal) => refusal.number,
    }
}

// The totals at their places.
#[tactic(auto, unfolding(crate::specs::Numbers::totals_at))]
pub fn totals_at(n: &[u64; 7]) -> Totals
    ensures { result ≡ totals_at n.now }
{
    Totals {
        words: n[0],
        bursts: n[1],
        released: n[2],
        largest: n[3],
        screen: n[4],
        row: n[5],
        any: n[6] == 1,
    }
}

// The totals' numbers.
fn write_totals(t: Totals, into: &mut [u64; 7])
    ensures { into.new ≡ totals_numbers t }
{
    *into = [
        t.words,
        t.bursts,
        t.released,
        t.largest,
        t.screen,
        t.row,
        t.any as u64,
    ];
}
