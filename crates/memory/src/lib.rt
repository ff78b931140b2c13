#![tactic(auto)]
// Display memory: pointers, addresses, and the words that a host lends.
ghost use Rattle.std.specs.Prelude.{◌≡◌, ◌+◌, ◌<◌, ◌≤◌, length, take, drop, nat_le};
ghost use Rattle.memory.specs.Word.{bit, high, low};
ghost use Rattle.memory.specs.Reading.{fetch, blaming, fault, missing, from_told, refusal, told_in, run};
ghost use Rattle.memory.specs.Address.{to, pointer, is_address, page_after, forward, next_word, ahead, onward, further, words};
ghost use Rattle.memory.specs.Answers.{is_run, end_page, words_read};

// A pointer in use: the address of the word that is due, and where the pointer itself begins in memory, 0 where a register held it. A
// null pointer has 0 and 0.
#[derive(Clone, Copy, PartialEq, Eq)]
pub struct Pointer {
    pub address: u32,
    pub from: u32,
}

impl Pointer {
    pub const NULL: Pointer = Pointer {
        address: 0,
        from: 0,
    };
}

// A refusal on its way up, before its row is told: document 01's number, the address, and of refusals 7 to 10 and 13 where the pointer to
// blame begins.
#[derive(Clone, Copy, PartialEq, Eq)]
pub struct Fault {
    pub number: u8,
    pub address: u32,
    pub from: u32,
}

// A refusal of document 01: its number, the row and the address that it tells; of refusal 7 also where the pointer in use begins.
#[derive(Clone, Copy, PartialEq, Eq)]
pub struct Refusal {
    pub number: u8,
    pub row: u32,
    pub address: u32,
    pub from: u32,
}

// The refusal of a check: its addresses are 0.
pub fn fault_of(number: u8) -> Fault
    ensures { result ≡ fault number }
{
    Fault {
        number,
        address: 0,
        from: 0,
    }
}

// The refusal of a check on what a pointer led to: the pointer is to blame.
pub fn blame(number: u8, p: Pointer) -> Fault
    ensures { result ≡ blaming number p }
{
    Fault {
        number,
        address: 0,
        from: p.from,
    }
}

// Refusal 7 of the word that is due.
pub fn missing(p: Pointer) -> Fault
    ensures { result ≡ missing p }
{
    Fault {
        number: 7,
        address: p.address,
        from: p.from,
    }
}

// The refusal that a call tells.
pub fn refusal_of(row: u32, fault: Fault) -> Refusal
    ensures { result ≡ refusal row fault }
{
    Refusal {
        number: fault.number,
        row,
        address: fault.address,
        from: from_told(fault),
    }
}

// The refusal of a check that is met in no row.
pub fn refused<T>(number: u8) -> Result<T, Refusal>
    ensures { result ≡ Err (refusal 0 (fault number)) }
{
    Err(refusal_of(0, fault_of(number)))
}

// What a call answers of a row: what it read, or the refusal that it tells.
pub fn told_in<T>(row: u32, read: Result<T, Fault>) -> Result<T, Refusal>
    ensures { result ≡ told_in row read }
{
    match read {
        Ok(value) => Ok(value),
        Err(fault) => Err(refusal_of(row, fault)),
    }
}

// Where the pointer in use begins, which refusal 7 alone tells.
fn from_told(fault: Fault) -> u32
    ensures { result ≡ from_told fault }
{
    if fault.number == 7 { fault.from } else { 0 }
}

// The high byte of a word.
pub fn high_byte(w: u16) -> u8
    ensures { result ≡ high w }
{
    (w / 256) as u8
}

// The low byte of a word.
pub fn low_byte(w: u16) -> u8
    ensures { result ≡ low w }
{
    (w % 256) as u8
}

// Bit 15 of a word.
pub fn bit_15(w: u16) -> bool
    ensures { result ≡ bit 15 w }
{
    w / 32768 % 2 == 1
}

// Bit 13 of a word.
pub fn bit_13(w: u16) -> bool
    ensures { result ≡ bit 13 w }
{
    w / 8192 % 2 == 1
}

// The pointer that two words give, the first of them at the address `from`.
pub fn pointer_of(linear: bool, from: u32, first: u16, second: u16) -> Pointer
    ensures { result ≡ pointer linear from first second }
{
    if linear {
        pointer_to(from, (first as u32 % 256 * 65536 + second as u32) / 2 * 2)
    } else {
        pointer_to(
            from,
            (first as u32 / 256 % 128 * 65536 + second as u32) / 2 * 2,
        )
    }
}

// The pointer to an address: a null one begins nowhere.
fn pointer_to(from: u32, address: u32) -> Pointer
    ensures { result ≡ to from address }
{
    if address == 0 {
        Pointer { address, from: 0 }
    } else {
        Pointer { address, from }
    }
}

// Is the number an even address of 24 bits?
pub fn is_address(a: u32) -> bool
    ensures { result ≡ is_address a }
{
    (a % 2 == 0) & (a < 16777216)
}

// The address of the word after the one at `a`: the place goes on, from FFFE to 0, and what it carries there goes to the page.
pub fn next_word(linear: bool, a: u32) -> u32
    ensures { result ≡ next_word linear a }
{
    let place = (a % 65536) as u16;
    let next = place.wrapping_add(2);
    let carried = if next < place { 1 } else { 0 };
    page_after(linear, carried, a / 65536) * 65536 + next as u32
}

// The address `count` words after `a`. 8,388,608 words are 16,777,216 bytes, after which an address comes round in both modes: so many
// are left out, and no sum is too large.
pub fn words_ahead(linear: bool, count: u32, a: u32) -> u32
    ensures { result ≡ ahead linear count a }
{
    if count == 0 {
        return a;
    }
    forward_in_loops(linear, count % 8388608 * 2, a)
}

// The pointer one word further.
pub fn onward(linear: bool, p: Pointer) -> Pointer
    ensures { result ≡ onward linear p }
{
    Pointer {
        address: forward_in_loops(linear, 2, p.address),
        from: p.from,
    }
}

// The pointer `count` words further.
pub fn further(linear: bool, count: u32, p: Pointer) -> Pointer
    ensures { result ≡ further linear count p }
{
    Pointer {
        address: words_ahead(linear, count, p.address),
        from: p.from,
    }
}

// Do `count` words from the address `a` on stand one after the other in memory, with no wrap between them?
pub fn is_run(mem: &[u16], linear: bool, a: u32, count: usize) -> bool
    ensures { result ≡ is_run linear (length mem.now) a count }
{
    let i = (a / 2) as usize;
    let end = end_page(linear, a / 65536) * 32768;
    has_room(i, count, mem.len()) & has_room(i, count, end)
}

// The word at the address `a`.
pub fn word_at(mem: &[u16], a: u32) -> Option<u16>
    ensures { result ≡ fetch mem.now a }
{
    mem.get((a / 2) as usize).copied()
}

// As many words as `into` holds, from a pointer on.
pub fn read_words(mem: &[u16], linear: bool, p: Pointer, into: &mut [u16]) -> Result<(), Fault>
    ensures { words_read result into.new ≡ run mem.now (words linear (length into.old) p) }
{
    let mut at = p;
    for w in into {
        let Some(word) = word_at(mem, at.address) else {
            return Err(missing(at));
        };
        *w = word;
        at = onward(linear, at);
    }
    Ok(())
}

// As `read_words`, of words that are often many and stand one after the other in memory: those are copied.
pub fn read_many(mem: &[u16], linear: bool, p: Pointer, into: &mut [u16]) -> Result<(), Fault>
    ensures { words_read result into.new ≡ run mem.now (words linear (length into.old) p) }
{
    if into.len() == 0 {
        return Ok(());
    }
    let first = p.address;
    if is_run(mem, linear, first, into.len()) {
        copy_run(mem, (first / 2) as usize, into);
        return Ok(());
    }
    read_words(mem, linear, p, into)
}

// The words of memory from number `at` on, as many as `into` holds.
fn copy_run(mem: &[u16], at: usize, into: &mut [u16])
    requires { at + length into.old ≤ length mem.now }
    ensures { into.new ≡ take (length into.old) (drop at mem.now) }
{
    for (i, word) in into.iter_mut().enumerate() {
        *word = mem[at + i];
    }
}

// Do `count` places from `i` on lie before `end`? Written without the sum `i + count`, which could wrap.
fn has_room(i: usize, count: usize, end: usize) -> bool
    ensures { result ≡ nat_le (i + count) end }
{
    if i <= end { count <= end - i } else { false }
}

// The page after the place has carried: linear it takes the carry, from FF to 0; segmented it stays.
fn page_after(linear: bool, carried: u32, page: u32) -> u32
    requires { (carried ≤ 1) × (page < 65536) }
    ensures { result ≡ page_after linear carried page }
{
    if linear { (page + carried) % 256 } else { page }
}

// The address some bytes further, as `next_word` steps, for loops that have the step inlined: linear, one sum of page and place, which
// carries and wraps by itself. Part by part rows and effects take longer (docs/DECISIONS.md, "The step in the code").
fn forward_in_loops(linear: bool, bytes: u32, a: u32) -> u32
    requires { bytes < 16777216 }
    ensures { result ≡ forward linear bytes a }
{
    let page = a / 65536;
    let place = a % 65536;
    if linear {
        (page % 256 * 65536 + place + bytes) % 16777216
    } else {
        page * 65536 + (place + bytes) % 65536
    }
}

// The page at which addresses from a page on have wrapped.
fn end_page(linear: bool, page: u32) -> usize
    ensures { result ≡ end_page linear page }
{
    if linear { 256 } else { page as usize + 1 }
}
