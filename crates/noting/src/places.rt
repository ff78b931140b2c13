// Addresses at places of a list.
ghost use Rattle.std.specs.Prelude.{◌≡◌, true, ◌+◌, ◌/◌, ◌≤◌, length, set};
ghost use Rattle.std.proofs.lemmas.List.Edits.{sets};
ghost use Rattle.noting.specs.Noting.{in_turn};

// An address at a place of a list. A place past its end is left out.
pub fn note(a: u32, at: usize, list: &mut [u32])
    ensures { list.new ≡ set list.old at a }
{
    if at < list.len() {
        list[at] = a;
    }
}

// The addresses of `n` words from the address `a` on, from the place `at` on, where none of them wraps. Each is told from the first, so
// that the compiler can write several at a time.
pub fn note_run(n: usize, a: u32, at: usize, list: &mut [u32])
    requires { (a / 2 + n ≤ 8388608) × (at ≤ 8000000000) }
    ensures { list.new ≡ sets list.old at (in_turn true n a) }
{
    let end = list.len().min(at + n);
    for i in at..end {
        list[i] = a + 2 * (i - at) as u32;
    }
}
