// Words without a code that invokes.
ghost use Rattle.std.specs.Prelude.{◌≡◌, false, ◌+◌, ◌≤◌, length};
ghost use Rattle.noting.specs.Noting.{some_invoke};

use codes::attribute;

// How many words from number `from` on, of `words`, have no code that invokes: by eights, and the last ones only after some.
pub fn plain_words(mem: &[u16], flag: u16, from: usize, words: usize) -> usize
    requires { (from + words ≤ length mem.now) × (words ≤ 255) }
    ensures { (result ≤ words) × (some_invoke flag mem.now from result ≡ false) }
{
    let mut k = 0;
    while k + 8 <= words {
        if does_some_invoke(mem, flag, from + k) {
            return k;
        }
        k += 8;
    }
    if k == 0 {
        return 0;
    }
    last_plain(mem, flag, from, words, k)
}

// .. the last ones word by word, where the first `k` have none.
fn last_plain(mem: &[u16], flag: u16, from: usize, words: usize, k: usize) -> usize
    requires { (from + words ≤ length mem.now) × (words ≤ 255) × (k ≤ words) × (some_invoke flag mem.now from k ≡ false) }
    ensures { (result ≤ words) × (some_invoke flag mem.now from result ≡ false) }
{
    for i in k..words {
        let w = mem[from + i];
        let first = attribute::invokes(flag, memory::high_byte(w));
        if first | attribute::invokes(flag, memory::low_byte(w)) {
            return i;
        }
    }
    words
}

// Does a code of the eight words from number `from` on invoke? Each word is looked at, so that the compiler can compare all at a time.
fn does_some_invoke(mem: &[u16], flag: u16, from: usize) -> bool
    requires { from + 8 ≤ length mem.now }
    ensures { result ≡ some_invoke flag mem.now from 8 }
{
    let mut some = false;
    for w in &mem[from..from + 8] {
        let first = attribute::invokes(flag, memory::high_byte(*w));
        some |= first | attribute::invokes(flag, memory::low_byte(*w));
    }
    some
}
