#![tactic(auto)]
// A console's calls in C (libthagaduvin.a): each is the library's, with its clause. Slices are lent, and of numbers at fixed places
// (include/thagaduvin.h has the table).
ghost use Rattle.std.specs.Prelude.{◌≡◌};
ghost use Rattle.answers.specs.AfterCall.{answered};
ghost use Rattle.bus.specs.Numbers.{called};
ghost use Rattle.listed_answers.specs.AfterListed.{stated_listed, drawn_listed};
ghost use Rattle.mail_answers.specs.AfterMail.{lent};
ghost use Rattle.thagaduvin.specs.BusCalls.{host_bus};
ghost use Rattle.thagaduvin.specs.Calls.{host_sheet, host_start, host_row, host_latch};
ghost use Rattle.thagaduvin.specs.MailCalls.{host_write_mail, host_read_mail};
ghost use Rattle.thagaduvin.specs.WriterCalls.{word_written, host_write_word};

// The settings sheet, in `answer`.
#[unsafe(no_mangle)]
pub extern "C" fn thagaduvin_sheet(settings: &[u32], answer: &mut [u32]) -> u8
    ensures { answered result answer.new ≡ host_sheet settings.now answer.old }
{
    thagaduvin::thagaduvin_sheet(settings, answer)
}

// A frame's first state from a latch, in `state`, the words read, and their addresses in `list`.
#[unsafe(no_mangle)]
pub extern "C" fn thagaduvin_start(
    settings: &[u32],
    memory: &[u16],
    latch: u16,
    state: &mut [u32],
    list: &mut [u32],
    answer: &mut [u32],
) -> u8
    ensures { stated_listed result state.new list.new answer.new ≡ host_start settings.now memory.now latch state.old list.old answer.old }
{
    thagaduvin::thagaduvin_start(settings, memory, latch, state, list, answer)
}

// The next row: its cells in `cells`, the next state in `state`, the addresses of the words read in `list`.
#[unsafe(no_mangle)]
pub extern "C" fn thagaduvin_row(
    settings: &[u32],
    memory: &[u16],
    state: &mut [u32],
    cells: &mut [u32],
    list: &mut [u32],
    answer: &mut [u32],
) -> u8
    ensures { drawn_listed result state.new cells.new list.new answer.new ≡ host_row settings.now memory.now state.old cells.old list.old answer.old }
{
    thagaduvin::thagaduvin_row(settings, memory, state, cells, list, answer)
}

// The latch that a frame hands on, in `answer`, from the latch that it was started with and the state that it ended with.
#[unsafe(no_mangle)]
pub extern "C" fn thagaduvin_latch(latch: u16, state: &[u32], answer: &mut [u32]) -> u8
    ensures { answered result answer.new ≡ host_latch latch state.now answer.old }
{
    thagaduvin::thagaduvin_latch(latch, state, answer)
}

// A row handed in: its figures in `answer`, and the running totals in `totals`, brought up to date. A refusal writes nothing.
#[unsafe(no_mangle)]
pub extern "C" fn thagaduvin_bus(
    burst: u16,
    words: u32,
    screen: u32,
    row: u32,
    totals: &mut [u64],
    answer: &mut [u64],
) -> u8
    ensures { called result totals.new answer.new ≡ host_bus (record { burst = burst; words = words; screen = screen; row = row }) totals.old answer.old }
{
    thagaduvin::thagaduvin_bus(burst, words, screen, row, totals, answer)
}

// The text of a row's cells, in `text`, and its length, in `answer`.
#[unsafe(no_mangle)]
pub extern "C" fn thagaduvin_write_mail(
    settings: &[u32],
    cells: &[u32],
    text: &mut [u8],
    answer: &mut [u32],
) -> u8
    ensures { lent result text.new answer.new ≡ host_write_mail settings.now cells.now text.old answer.old }
{
    thagaduvin::thagaduvin_write_mail(settings, cells, text, answer)
}

// The cells of a row's text, in `cells`, and their count, in `answer`; or the offset at which the text is none.
#[unsafe(no_mangle)]
pub extern "C" fn thagaduvin_read_mail(text: &[u8], cells: &mut [u16], answer: &mut [u32]) -> u8
    ensures { lent result cells.new answer.new ≡ host_read_mail text.now cells.old answer.old }
{
    thagaduvin::thagaduvin_read_mail(text, cells, answer)
}

// Writes one word at an address of the writer's own span; the other desk's span is told too.
#[unsafe(no_mangle)]
pub extern "C" fn thagaduvin_write_word(
    memory: &mut [u16],
    own_first: u32,
    own_last: u32,
    other_first: u32,
    other_last: u32,
    address: u32,
    word: u16,
) -> u8
    ensures { word_written result memory.new ≡ host_write_word memory.old (record { first = own_first; last = own_last }) (record { first = other_first; last = other_last }) address word }
{
    thagaduvin::thagaduvin_write_word(
        memory,
        own_first,
        own_last,
        other_first,
        other_last,
        address,
        word,
    )
}
