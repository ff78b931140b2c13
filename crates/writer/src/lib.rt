#![tactic(auto)]
// The writer call of two desks on one memory: one word, in the writer's own span.
ghost use Rattle.std.specs.Prelude.{◌≡◌};
ghost use Rattle.writer.specs.Writer.{share, may_write, wrote, write_word};

use memory::Refusal;

// A desk's part of memory: its first and its last byte address, both in it. A first one above the last is an empty span.
#[derive(Clone, Copy)]
pub struct Span {
    pub first: u32,
    pub last: u32,
}

// Writes one word at an address of the writer's span `own`; `other` is the other desk's.
pub fn write_word(
    mem: &mut [u16],
    own: Span,
    other: Span,
    address: u32,
    word: u16,
) -> Result<(), Refusal>
    ensures { wrote result mem.new ≡ write_word mem.old own other address word }
{
    if share(own, other) {
        return memory::refused(16);
    }
    if may_write(own, address, mem.len()) {
        mem[(address / 2) as usize] = word;
        return Ok(());
    }
    memory::refused(15)
}

// Whether two spans share an address.
pub fn share(a: Span, b: Span) -> bool
    ensures { result ≡ share a b }
{
    (a.first <= a.last) & (a.first <= b.last) & (b.first <= a.last) & (b.first <= b.last)
}

// Whether the word at an address may be written: an even address of the span, and of a memory of `words` words.
fn may_write(own: Span, address: u32, words: usize) -> bool
    ensures { result ≡ may_write own address words }
{
    (address % 2 == 0)
        & ((own.first <= address) & (address <= own.last))
        & (((address / 2) as usize) < words)
}
