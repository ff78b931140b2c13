// The words of a segment's codes, each followed by the words that its codes take.
ghost use Rattle.std.specs.Prelude.{◌≡◌, ◌&&◌, ◌+◌, ◌≤◌, length};
ghost use Rattle.std.proofs.lemmas.List.Edits.{sets};
ghost use Rattle.memory.specs.Word.{high};
ghost use Rattle.codes.specs.Attribute.{invokes};
ghost use Rattle.addresses.specs.Addresses.{written_to, taken, list_after, pair, pair_after, single, code_after, code_addresses, code_list};

use crate::of_listed::Rest;
use crate::{Written, consecutive, of_listed};
use codes::{AttributeList, CodeSettings, attribute};
use memory::Pointer;

// `n` codes from a pointer on, two to a word. Without a list no code takes a word.
pub(crate) fn put_codes(
    mem: &[u16],
    settings: CodeSettings,
    n: u32,
    p: Pointer,
    l: AttributeList,
    at: usize,
    list: &mut [u32],
) -> Written
    requires { (at + length (code_addresses settings mem.now n p l) ≤ length list.old) × (n ≤ 255) }
    ensures value { result ≡ written_to at (code_addresses settings mem.now n p l) (code_list settings mem.now n p l) }
    ensures list_after { list.new ≡ sets list.old at (code_addresses settings mem.now n p l) }
{
    if l.present {
        let next = l.next;
        let rest = Rest {
            left: n,
            here: p,
            next,
            at,
        };
        of_listed::put_listed(mem, settings, rest, list)
    } else {
        let words = ((n + 1) / 2) as usize;
        consecutive::put_run(settings.linear, words, p.address, at, list);
        Written {
            at: at + words,
            list: l,
        }
    }
}

// The next word of the list in use, where it is due.
pub(crate) fn put_taken(
    linear: bool,
    due: bool,
    l: AttributeList,
    at: usize,
    list: &mut [u32],
) -> Written
    requires { at + length (taken due l) ≤ length list.old }
    ensures value { result ≡ written_to at (taken due l) (list_after linear due l) }
    ensures list_after { list.new ≡ sets list.old at (taken due l) }
{
    let next = l.next;
    if due {
        list[at] = next.address;
        let after = AttributeList {
            present: l.present,
            next: memory::onward(linear, next),
        };
        Written {
            at: at + 1,
            list: after,
        }
    } else {
        Written { at, list: l }
    }
}

// Where writing stands, from its parts: carried whole through the loop, the list would be copied through memory at each code.
pub(crate) fn written_to(at: usize, present: bool, next: Pointer) -> Written
    ensures { result ≡ record { at = at; list = record { present = present; next = next } } }
{
    let list = AttributeList { present, next };
    Written { at, list }
}

// A word with two codes.
pub(crate) fn put_pair(
    settings: CodeSettings,
    a: u32,
    w: u16,
    to: Written,
    list: &mut [u32],
) -> Written
    requires { to.at + length (pair settings a to.list w) ≤ length list.old }
    ensures value { result ≡ written_to to.at (pair settings a to.list w) (pair_after settings to.list w) }
    ensures list_after { list.new ≡ sets list.old to.at (pair settings a to.list w) }
{
    let one = put_single(settings, a, w, to, list);
    let l = one.list;
    let due = does_take(settings.flag, l, memory::low_byte(w));
    put_taken(settings.linear, due, l, one.at, list)
}

// A word with one code.
pub(crate) fn put_single(
    settings: CodeSettings,
    a: u32,
    w: u16,
    to: Written,
    list: &mut [u32],
) -> Written
    requires { to.at + length (single settings a to.list w) ≤ length list.old }
    ensures value { result ≡ written_to to.at (single settings a to.list w) (code_after settings to.list (high w)) }
    ensures list_after { list.new ≡ sets list.old to.at (single settings a to.list w) }
{
    let at = to.at;
    let l = to.list;
    list[at] = a;
    let due = does_take(settings.flag, l, memory::high_byte(w));
    put_taken(settings.linear, due, l, at + 1, list)
}

// Does a code take a word of the list?
fn does_take(flag: u16, l: AttributeList, code: u8) -> bool
    ensures { result ≡ invokes flag code && l.present }
{
    attribute::invokes(flag, code) & l.present
}
