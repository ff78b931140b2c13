// The writer call of two desks on one memory.
ghost use Rattle.std.specs.Prelude.{◌≡◌};
ghost use Rattle.thagaduvin.specs.WriterCalls.{word_written, host_write_word};

use writer::Span;

// Writes one word at an address of the writer's own span; the other desk's span is told too.
#[tactic(auto, unfolding(crate::specs::WriterCalls::host_write_word))]
pub fn thagaduvin_write_word(
    memory: &mut [u16],
    own_first: u32,
    own_last: u32,
    other_first: u32,
    other_last: u32,
    address: u32,
    word: u16,
) -> u8
    ensures { word_written result memory.new ≡ host_write_word memory.old (record { first = own_first; last = own_last }) (record { first = other_first; last = other_last }) address word }
{
    let own = Span {
        first: own_first,
        last: own_last,
    };
    let other = Span {
        first: other_first,
        last: other_last,
    };
    match writer::write_word(memory, own, other, address, word) {
        Ok(()) => 0,
        Err(r) => r.number,
    }
}
