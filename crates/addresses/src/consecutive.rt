// Words one after the other.
ghost use Rattle.std.specs.Prelude.{◌≡◌, ◌+◌, ◌≤◌, length};
ghost use Rattle.std.proofs.lemmas.List.Edits.{sets};
ghost use Rattle.noting.specs.Noting.{in_turn};
ghost use Rattle.addresses.specs.Addresses.{word_in, pointed};

use memory::Pointer;

// The word at an address; 0 where there is none.
pub(crate) fn word_in(mem: &[u16], a: u32) -> u16
    ensures { result ≡ word_in mem.now a }
{
    memory::word_at(mem, a).unwrap_or(0)
}

// The addresses of `n` words from a pointer on, from the place `at` on; none where it is null. The next place.
pub(crate) fn put_pointed(linear: bool, n: usize, p: Pointer, at: usize, list: &mut [u32]) -> usize
    requires { (at + length (pointed linear n p) ≤ length list.old) × (n ≤ 1000) }
    ensures value { result ≡ at + length (pointed linear n p) }
    ensures list_after { list.new ≡ sets list.old at (pointed linear n p) }
{
    if p.address == 0 {
        return at;
    }
    put_run(linear, n, p.address, at, list);
    at + n
}

// The addresses of `n` words from the address `a` on, from the place `at` on. Each is told from the first, so that the compiler can
// write several at a time.
pub(crate) fn put_run(linear: bool, n: usize, a: u32, at: usize, list: &mut [u32])
    requires { (at + n ≤ length list.old) × (n ≤ 1000) }
    ensures { list.new ≡ sets list.old at (in_turn linear n a) }
{
    for i in 0..n {
        list[at + i] = memory::words_ahead(linear, i as u32, a);
    }
}
