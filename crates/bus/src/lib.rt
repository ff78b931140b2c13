#![tactic(auto)]
// How much of the bus a screen takes: a row's bursts and its least released time, and the running totals of the rows handed in.
ghost use Rattle.std.specs.Prelude.{◌≡◌, true, ◌+◌, ◌-◌, ◌*◌, ◌<◌, ◌≤◌};
ghost use Rattle.memory.specs.Word.{when◌then◌else◌};
ghost use Rattle.bus.specs.Bus.{burst_space, burst_count, bursts, figures, none, largest_row, told, added, fits, all_fit, refuse, reported};

use memory::Refusal;

pub mod numbers; // totals and figures as numbers

// A row handed in: the burst register (space in the high byte, count in the low), the words read for the row, its screen and row.
#[derive(Clone, Copy)]
pub struct BusRow {
    pub burst: u16,
    pub words: u32,
    pub screen: u32,
    pub row: u32,
}

// What a row takes of the bus: its bursts, and the least time for which it releases the bus, in system clocks.
#[derive(Clone, Copy)]
pub struct Figures {
    pub bursts: u64,
    pub released: u64,
}

// The largest word count, with the screen and row as they were handed in.
#[derive(Clone, Copy)]
pub struct LargestRow {
    pub words: u64,
    pub screen: u64,
    pub row: u64,
}

// The running totals: the sums over the rows, the largest word count with its screen and row, and whether a row was handed in.
// While none was, any numbers may stand for the largest row.
#[derive(Clone, Copy)]
pub struct Totals {
    pub words: u64,
    pub bursts: u64,
    pub released: u64,
    pub largest: u64,
    pub screen: u64,
    pub row: u64,
    pub any: bool,
}

// The totals after a row, and the row's answer.
#[derive(Clone, Copy)]
pub struct Reported {
    pub totals: Totals,
    pub answer: Result<Figures, Refusal>,
}

// A row's answer. Unless it is refused, the totals are brought up to date where they stand.
pub fn report(totals: &mut Totals, row: BusRow) -> Result<Figures, Refusal>
    ensures { record { totals = totals.new; answer = result } ≡ reported totals.old row }
{
    let r = count_row(*totals, row);
    *totals = r.totals;
    r.answer
}

// The same for totals by value: they stand in a local here, which is lent, and come back with the row's answer.
pub fn report_by_value(totals: Totals, row: BusRow) -> Reported
    ensures { result ≡ reported totals row }
{
    let mut standing = totals;
    let answer = report(&mut standing, row);
    Reported {
        totals: standing,
        answer,
    }
}

// What `report` is over, on plain numbers: the totals as they are after the row, with its answer.
fn count_row(totals: Totals, row: BusRow) -> Reported
    ensures { result ≡ reported totals row }
{
    if row.burst % 256 == 0 {
        return refused(totals, 20);
    }
    let f = figures_of(row);
    if !all_fit(totals, row, f) {
        return refused(totals, 21);
    }
    let after = with_row(totals, row, f);
    Reported {
        totals: after,
        answer: Ok(f),
    }
}

// The totals before any row.
#[tactic(auto, unfolding(crate::specs::Bus::none))]
pub fn none() -> Totals
    ensures { result ≡ none }
{
    Totals {
        words: 0,
        bursts: 0,
        released: 0,
        largest: 0,
        screen: 0,
        row: 0,
        any: false,
    }
}

// The largest row as it is told: 0, 0 and 0 while there is none.
#[tactic(auto, unfolding(crate::specs::Bus::none))]
pub fn largest_told(totals: Totals) -> LargestRow
    ensures { result ≡ told (largest_row totals) }
{
    let t = if totals.any { totals } else { none() };
    LargestRow {
        words: t.largest,
        screen: t.screen,
        row: t.row,
    }
}

// A refusal, with the totals unchanged.
fn refused(totals: Totals, number: u8) -> Reported
    ensures { result ≡ refuse number totals }
{
    Reported {
        totals,
        answer: memory::refused(number),
    }
}

// The figures of a row.
#[tactic(auto, unfolding(crate::specs::Bus::released))]
fn figures_of(row: BusRow) -> Figures
    requires { 0 < burst_count row.burst }
    ensures { result ≡ figures row }
{
    let bursts = bursts(row.burst, row.words);
    Figures {
        bursts,
        released: released(row.burst, bursts),
    }
}

// Words over burst count, rounded up; one burst where the bus is kept.
fn bursts(burst: u16, words: u32) -> u64
    requires { 0 < burst_count burst }
    ensures { (result ≡ bursts burst words) × (result ≤ 4294967551) }
{
    if words == 0 {
        return 0;
    }
    if burst / 256 == 0 {
        return 1;
    }
    let count = (burst % 256) as u64;
    (words as u64 + (count - 1)) / count
}

// 15 clocks times burst space for each gap.
fn released(burst: u16, bursts: u64) -> u64
    requires { bursts ≤ 4294967551 }
    ensures { result ≡ 15 * (burst_space burst * (bursts - 1)) }
{
    let gaps = bursts.saturating_sub(1);
    15 * ((burst / 256) as u64 * gaps)
}

// Do all three totals fit with the row added?
#[tactic(auto, unfolding(crate::specs::Bus::added))]
fn all_fit(t: Totals, row: BusRow, f: Figures) -> bool
    requires { f ≡ figures row }
    ensures { result ≡ all_fit (added t row) }
{
    let words = fits(t.words, row.words as u64);
    let bursts = fits(t.bursts, f.bursts);
    let released = fits(t.released, f.released);
    words & (bursts & released)
}

// Does a sum fit 64 bits?
fn fits(a: u64, b: u64) -> bool
    ensures { result ≡ fits (a + b) }
{
    b <= u64::MAX - a
}

// The totals with a row added.
fn with_row(t: Totals, row: BusRow, f: Figures) -> Totals
    requires { (f ≡ figures row) × (all_fit (added t row) ≡ true) }
    ensures { result ≡ added t row }
{
    let words = row.words as u64;
    let new = !t.any | (t.largest < words);
    Totals {
        words: t.words + words,
        bursts: t.bursts + f.bursts,
        released: t.released + f.released,
        largest: pick(new, words, t.largest),
        screen: pick(new, row.screen as u64, t.screen),
        row: pick(new, row.row as u64, t.row),
        any: true,
    }
}

fn pick(test: bool, a: u64, b: u64) -> u64
    ensures { result ≡ (when test then a else b) }
{
    if test { a } else { b }
}

#[cfg(test)]
mod tests {
    use super::*;

    #[test]
    fn tells_the_largest(rt: HostRuntime) {
        let row = BusRow {
            burst: 0x0104,
            words: 19,
            screen: 3,
            row: 7,
        };
        let one = report_by_value(none(), row).totals;
        let marked_none = Totals { any: false, ..one };
        for (totals, want) in [
            (none(), (0, 0, 0)),
            (one, (19, 3, 7)),
            (marked_none, (0, 0, 0)),
        ] {
            let told = largest_told(totals);
            assert_eq!(rt; (told.words, told.screen, told.row), want);
        }
    }
}
