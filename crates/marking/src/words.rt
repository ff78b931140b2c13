// Words, and the words of a block, marked as they are met.
ghost use Rattle.std.specs.Prelude.{◌≡◌, ◌&&◌, not, List, ◌/◌, eqb};
ghost use Rattle.memory.specs.Reading.{Role, ask, asking, in_role, done, read_as};
ghost use Rattle.memory.specs.Address.{page, address_of, words};
ghost use Rattle.converter.specs.Walk.{mark, word_of, points_at, read_on, walk};
ghost use Rattle.marking.specs.Answers.{Kept, word_walked, Trails, pointer_mark, mark_at, Shaped};

use crate::Shape;
use crate::marked::Marked;
use memory::{Fault, Pointer};

impl Marked<'_> {
    // The word that is due, marked: 1 as the first word of a pointer, 2 as the second, 3 as anything else. `held` is the address
    // that the register in use holds. Refusal 18, 7 or 19 marks nothing.
    pub fn mark_word(&mut self, held: u32, p: Pointer, role: u8) -> Result<u16, Fault>
        ensures kept { Kept self.old self.new }
        ensures walked { (k : Role) → mark k ≡ role → word_walked result self.new.marks.now ≡ walk held self.old.mem.now self.old.marks.now (ask (in_role k (asking p)) done) }
    {
        if is_read_on(self.mem, held, p) {
            return Err(over_page_end(p.address));
        }
        let Some(word) = memory::word_at(self.mem, p.address) else {
            return Err(memory::missing(p));
        };
        let i = (p.address / 2) as usize;
        if is_shared(self.marks[i], role) {
            return Err(shared_word(p.address));
        }
        self.marks[i] = role;
        Ok(word)
    }

    // The `count` words of a block from a pointer on, marked as its shape says.
    pub fn mark_words(
        &mut self,
        linear: bool,
        held: u32,
        p: Pointer,
        shape: Shape,
        count: u32,
    ) -> Result<(), Fault>
        ensures { (rs : List Role) → Shaped shape count rs → Trails result self.old self.new held (read_as rs (words linear count p)) }
    {
        let mut at = p;
        for i in 0..count {
            self.mark_word(held, at, mark_at(shape, i))?;
            at = memory::onward(linear, at);
        }
        Ok(())
    }
}

// The word at an address, 0 outside memory.
pub fn word_in(mem: &[u16], a: u32) -> u16
    ensures { result ≡ word_of mem.now a }
{
    memory::word_at(mem, a).unwrap_or(0)
}

// Is the word that is due reached by a step over a page end?
#[tactic(auto, unfolding(converter::specs::Walk::read_on))]
fn is_read_on(mem: &[u16], held: u32, p: Pointer) -> bool
    ensures { result ≡ read_on held mem.now p.address p.from }
{
    (p.address % 65536 == 0) & (p.address != points_at(mem, held, p.from))
}

// Where the segmented pointer that begins at `from` points; that of a register, `held`, where `from` is 0.
fn points_at(mem: &[u16], held: u32, from: u32) -> u32
    ensures { result ≡ points_at held mem.now from }
{
    if from == 0 {
        return held;
    }
    let first = word_in(mem, from);
    let second = word_in(mem, memory::next_word(false, from));
    memory::pointer_of(false, from, first, second).address
}

// Refusal 18: the address of the last word of the page that an address begins.
fn over_page_end(address: u32) -> Fault
    ensures { result ≡ record { number = 18; address = address_of (page address) 65534; from = 0 } }
{
    Fault {
        number: 18,
        address: address / 65536 * 65536 + 65534,
        from: 0,
    }
}

// Has a word another mark than that of the role it is now read in?
fn is_shared(found: u8, role: u8) -> bool
    ensures { result ≡ not (eqb found 0) && not (eqb found role) }
{
    (found != 0) & (found != role)
}

// Refusal 19.
fn shared_word(address: u32) -> Fault
    ensures { result ≡ record { number = 19; address = address; from = 0 } }
{
    Fault {
        number: 19,
        address,
        from: 0,
    }
}

// The mark of word `i` of a block.
#[tactic(auto, unfolding(crate::specs::Answers::mark_at))]
fn mark_at(shape: Shape, i: u32) -> u8
    ensures { result ≡ mark_at shape i }
{
    match shape {
        Shape::Plain => 3,
        Shape::OnePointer => pointer_mark(i, 2),
        Shape::TwoPointers => pointer_mark(i, 4),
        Shape::Segments => pointer_mark(i % 5, 4),
    }
}

// The mark of word `i` where pointers stand before word `end`.
fn pointer_mark(i: u32, end: u32) -> u8
    ensures { result ≡ pointer_mark i end }
{
    if i < end { (i % 2 + 1) as u8 } else { 3 }
}
