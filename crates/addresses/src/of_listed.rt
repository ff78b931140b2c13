// The codes of a segment with a list: words without a code that invokes first, then the others word by word.
ghost use Rattle.std.specs.Prelude.{◌≡◌, ◌+◌, ◌*◌, ◌≤◌, length};
ghost use Rattle.std.proofs.lemmas.List.Edits.{sets};
ghost use Rattle.addresses.specs.Listed.{left_addresses, left_written, past};

use crate::{Written, consecutive, of_codes};
use codes::CodeSettings;
use memory::Pointer;

// What of a segment's codes is left to write: how many codes, the pointer to their first word, that to the next word of the list, and the
// place.
#[derive(Drop)]
pub(crate) struct Rest {
    pub(crate) left: u32,
    pub(crate) here: Pointer,
    pub(crate) next: Pointer,
    pub(crate) at: usize,
}

// All that is left.
pub(crate) fn put_listed(
    mem: &[u16],
    settings: CodeSettings,
    rest: Rest,
    list: &mut [u32],
) -> Written
    requires { (rest.at + length (left_addresses settings mem.now rest) ≤ length list.old) × (rest.left ≤ 255) }
    ensures value { result ≡ left_written settings mem.now rest }
    ensures list_after { list.new ≡ sets list.old rest.at (left_addresses settings mem.now rest) }
{
    let after = put_plain(mem, settings, rest, list);
    put_rest(mem, settings, after, list)
}

// The words up to one with a code that invokes, eight at a time, where they stand one after the other in memory. Gives what is then left.
fn put_plain(mem: &[u16], settings: CodeSettings, rest: Rest, list: &mut [u32]) -> Rest
    requires { (rest.at + length (left_addresses settings mem.now rest) ≤ length list.old) × (rest.left ≤ 255) }
    ensures result_value { left_written settings mem.now result ≡ left_written settings mem.now rest }
    ensures result_after { sets list.new result.at (left_addresses settings mem.now result) ≡ sets list.old rest.at (left_addresses settings mem.now rest) }
{
    let words = (rest.left / 2) as usize;
    let a = rest.here.address;
    if (8 <= words) & memory::is_run(mem, settings.linear, a, words) {
        let k = noting::plain::plain_words(mem, settings.flag, (a / 2) as usize, words);
        consecutive::put_run(settings.linear, k, a, rest.at, list);
        past(settings.linear, k, rest)
    } else {
        rest
    }
}

// What is left past `k` words none of whose codes invokes.
fn past(linear: bool, k: usize, rest: Rest) -> Rest
    requires { (2 * k ≤ rest.left) × (rest.at + k ≤ 18446744073709551615) }
    ensures { result ≡ past linear k rest }
{
    let here = rest.here;
    let next = rest.next;
    Rest {
        left: rest.left - 2 * k as u32,
        here: memory::further(linear, k as u32, here),
        next,
        at: rest.at + k,
    }
}

// What is left, word by word.
fn put_rest(mem: &[u16], settings: CodeSettings, rest: Rest, list: &mut [u32]) -> Written
    requires { rest.at + length (left_addresses settings mem.now rest) ≤ length list.old }
    ensures value { result ≡ left_written settings mem.now rest }
    ensures list_after { list.new ≡ sets list.old rest.at (left_addresses settings mem.now rest) }
{
    let mut place = rest.at;
    let mut next = rest.next;
    let mut here = rest.here;
    let mut left = rest.left;
    while 1 < left {
        let w = consecutive::word_in(mem, here.address);
        let to = of_codes::written_to(place, true, next);
        let after = of_codes::put_pair(settings, here.address, w, to, list);
        place = after.at;
        next = after.list.next;
        here = memory::onward(settings.linear, here);
        left -= 2;
    }
    let to = of_codes::written_to(place, true, next);
    if left == 1 {
        let w = consecutive::word_in(mem, here.address);
        of_codes::put_single(settings, here.address, w, to, list)
    } else {
        to
    }
}
