#![tactic(auto)]
// A console's call that converts a segmented list in C (libthagaduvin_convert.a): the library's, with its clause.
ghost use Rattle.std.specs.Prelude.{◌≡◌, length};
ghost use Rattle.answers.specs.Changing.{left};
ghost use Rattle.thagaduvin_convert.specs.ConvertCalls.{host_convert};

// The pointers that a frame from a latch reads turned into linear form, in `memory` and in `settings`, which are then linear; how many
// have changed in `answer`. `marks` are free.
#[unsafe(no_mangle)]
pub extern "C" fn thagaduvin_convert(
    settings: &mut [u32],
    memory: &mut [u16],
    marks: &mut [u8],
    latch: u16,
    answer: &mut [u32],
) -> u8
    ensures { left result settings.new memory.new answer.new ≡ host_convert settings.old memory.old (length marks.old) latch answer.old }
{
    thagaduvin_convert::thagaduvin_convert(settings, memory, marks, latch, answer)
}
