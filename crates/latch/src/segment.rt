// The codes of a segment, and the words of its list.
ghost use Rattle.std.specs.Prelude.{◌≡◌, ◌+◌, ◌/◌, ◌≤◌, length};
ghost use Rattle.cells.specs.Cells.{code_count};
ghost use Rattle.latch.specs.Latch.{takes, invoking, last_latched, taken, over_segment};

use crate::LatchEffect;
use blocks::Segment;
use codes::{CodeSettings, attribute};

// The latch over a segment.
pub(crate) fn segment_latch(mem: &[u16], settings: CodeSettings, g: Segment) -> LatchEffect
    ensures { result ≡ over_segment settings mem.now g }
{
    let n = cells::code_count(g) as usize;
    if !memory::is_run(mem, settings.linear, g.codes.address, (n + 1) / 2) {
        return LatchEffect::Unclear;
    }
    let k = words_taken(mem, settings, g);
    if memory::is_run(mem, settings.linear, g.attributes.address, k) {
        last_latched(mem, (g.attributes.address / 2) as usize, k)
    } else {
        LatchEffect::Unclear
    }
}

// How many words of its list the codes of a segment take.
fn words_taken(mem: &[u16], settings: CodeSettings, g: Segment) -> usize
    requires { g.codes.address / 2 + (code_count g + 1) / 2 ≤ length mem.now }
    ensures { result ≡ taken settings mem.now g }
{
    if g.attributes.address == 0 {
        0
    } else {
        let n = cells::code_count(g) as usize;
        count_invoking(mem, settings.flag, (g.codes.address / 2) as usize, n)
    }
}

// How many of `n` codes invoke an attribute, two to a word from word number `at` on. No exit from the loop, so that the compiler
// can take several words at a time.
fn count_invoking(mem: &[u16], flag: u16, at: usize, n: usize) -> usize
    requires { (at + (n + 1) / 2 ≤ length mem.now) × (n ≤ 255) }
    ensures { result ≡ invoking flag mem.now at n }
{
    let half = n / 2;
    let mut sum: u16 = 0;
    for i in 0..half {
        let w = mem[at + i];
        sum += takes(flag, memory::high_byte(w)) + takes(flag, memory::low_byte(w));
    }
    if n % 2 == 1 {
        sum as usize + takes(flag, memory::high_byte(mem[at + half])) as usize
    } else {
        sum as usize
    }
}

// The words that a code takes of its segment's list.
fn takes(flag: u16, code: u8) -> u16
    ensures { (result ≡ takes flag code) × (result ≤ 1) }
{
    if attribute::invokes(flag, code) { 1 } else { 0 }
}

// The last of `count` words with bit 15, from word number `at` on.
fn last_latched(mem: &[u16], at: usize, count: usize) -> LatchEffect
    requires { at + count ≤ length mem.now }
    ensures { result ≡ last_latched mem.now at count }
{
    for i in (0..count).rev() {
        let w = mem[at + i];
        if memory::bit_15(w) {
            return LatchEffect::Latched(w);
        }
    }
    LatchEffect::Kept
}
