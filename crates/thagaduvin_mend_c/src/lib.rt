#![tactic(auto)]
// A console's call that mends a damaged list in C (libthagaduvin_mend.a): the library's, with its clause.
ghost use Rattle.std.specs.Prelude.{◌≡◌};
ghost use Rattle.answers.specs.Changing.{left};
ghost use Rattle.thagaduvin_mend.specs.MendCalls.{host_mend};

// One step of mending: a frame is drawn from a latch, and where it is refused one pointer is set to 0, in `memory` or in `settings`; the
// change in `answer`.
#[unsafe(no_mangle)]
pub extern "C" fn thagaduvin_mend(
    settings: &mut [u32],
    memory: &mut [u16],
    latch: u16,
    answer: &mut [u32],
) -> u8
    ensures { left result settings.new memory.new answer.new ≡ host_mend settings.old memory.old latch answer.old }
{
    thagaduvin_mend::thagaduvin_mend(settings, memory, latch, answer)
}
