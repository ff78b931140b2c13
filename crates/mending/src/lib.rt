#![tactic(auto)]
// Mending damaged lists: a frame is drawn, and at a refusal the pointer to blame for it is set to 0.
ghost use Rattle.std.specs.Prelude.{◌≡◌, ◌/◌, get_or, set};
ghost use Rattle.mending.specs.Answers.{Fewer};
ghost use Rattle.mending.specs.Mending.{place_address, change_of, settings_after, memory_after, stepped, mend_step};

use blame::{Place, Verdict};
use memory::Refusal;
use settings::{PointerWords, Settings};

// A pointer that was set to 0: where it stands, its words before, and the number of the refusal.
#[derive(Clone, Copy)]
pub struct Change {
    pub place: Place,
    pub first: u16,
    pub second: u16,
    pub number: u8,
}

// One step of mending: nothing to mend, one pointer changed, with the settings after it, or a refusal that is given as it is.
#[derive(Clone, Copy)]
pub enum MendAnswer {
    Whole,
    Changed { change: Change, settings: Settings },
    Refused(Refusal),
}

// One step of mending: a frame is drawn from a latch; where it is refused, the words of the pointer to blame become 0, in memory or in
// the settings.
pub fn mend_step(settings: Settings, mem: &mut [u16], latch: u16) -> MendAnswer
    ensures mem_after { stepped result mem.new ≡ mend_step latch settings mem.old }
    ensures fewer { Fewer settings mem.old result mem.new }
{
    match blame::frame_verdict(settings, mem, latch) {
        Verdict::Whole => MendAnswer::Whole,
        Verdict::Refused(refusal) => MendAnswer::Refused(refusal),
        Verdict::Blamed { place, number } => {
            let change = change_of(place, number, settings, mem);
            clear_words(place, settings.linear, mem);
            MendAnswer::Changed {
                change,
                settings: clear_register(place, settings),
            }
        }
    }
}

// The address that a change tells.
pub fn place_address(place: Place) -> u32
    ensures { result ≡ place_address «place» }
{
    match place {
        Place::Register => 0,
        Place::Memory(address) => address,
    }
}

// The change that sets the pointer at a place to 0.
fn change_of(place: Place, number: u8, settings: Settings, mem: &[u16]) -> Change
    ensures { result ≡ change_of «place» number settings mem.now }
{
    let (first, second) = match place {
        Place::Register => (settings.tow.first, settings.tow.second),
        Place::Memory(address) => (
            word_or_0(mem, address),
            word_or_0(mem, memory::next_word(settings.linear, address)),
        ),
    };
    Change {
        place,
        first,
        second,
        number,
    }
}

// The word at an address, 0 outside memory.
fn word_or_0(mem: &[u16], address: u32) -> u16
    ensures { result ≡ get_or mem.now (address / 2) 0 }
{
    mem.get((address / 2) as usize).copied().unwrap_or(0)
}

// Memory with the words of the pointer at a place 0.
fn clear_words(place: Place, linear: bool, mem: &mut [u16])
    ensures { mem.new ≡ memory_after «place» linear mem.old }
{
    if let Place::Memory(address) = place {
        clear_word(mem, address);
        clear_word(mem, memory::next_word(linear, address));
    }
}

// Memory with the word at an address 0.
fn clear_word(mem: &mut [u16], address: u32)
    ensures { mem.new ≡ set mem.old (address / 2) 0 }
{
    let i = (address / 2) as usize;
    if i < mem.len() {
        mem[i] = 0;
    }
}

// Settings with TOW 0, where the pointer at a place is TOW.
fn clear_register(place: Place, settings: Settings) -> Settings
    ensures { result ≡ settings_after «place» settings }
{
    match place {
        Place::Register => Settings {
            tow: PointerWords {
                first: 0,
                second: 0,
            },
            ..settings
        },
        Place::Memory(_) => settings,
    }
}
