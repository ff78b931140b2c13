// The blocks of a row, found again from the pointers of its state.
ghost use Rattle.std.specs.Prelude.{◌≡◌, List, ℕ, ◌+◌, ◌≤◌, length};
ghost use Rattle.std.proofs.lemmas.List.Edits.{sets};
ghost use Rattle.memory.specs.Address.{nothing};
ghost use Rattle.layout.specs.Answers.{overlay_of};
ghost use Rattle.addresses.specs.Addresses.{pointed, head_word, block_words, pointer_in, redefinition_of, due_of, rows_of, over_rows, plan_addresses};

use crate::consecutive;
use layout::OverlayHead;
use memory::Pointer;
use windows::Window;

// A due window, the row block at `next`, its redefinition, and the window's row block at `rows`. The next place.
pub(crate) fn put_plan(
    mem: &[u16],
    linear: bool,
    due: Pointer,
    next: Pointer,
    rows: Pointer,
    at: usize,
    list: &mut [u32],
) -> usize
    requires { at + length (plan_addresses linear mem.now due next rows) ≤ length list.old }
    ensures value { result ≡ at + length (plan_addresses linear mem.now due next rows) }
    ensures list_after { list.new ≡ sets list.old at (plan_addresses linear mem.now due next rows) }
{
    let redefinition = redefinition_of(mem, linear, next);
    let first = consecutive::put_pointed(linear, 6, due, at, list);
    let second = put_block(mem, linear, true, next, first, list);
    let third = consecutive::put_pointed(linear, 3, redefinition, second, list);
    put_block(mem, linear, false, rows, third, list)
}

// The window block that is due before a row; null where none is.
pub(crate) fn due_of(row: u32, w: Option<Window>) -> Pointer
    ensures { result ≡ due_of row w }
{
    match w {
        None => Pointer::NULL,
        Some(x) => {
            if (x.block.bottom as u32) < row {
                x.block.link
            } else {
                Pointer::NULL
            }
        }
    }
}

// The row block of the window in hand, on a row with a window; null on others.
pub(crate) fn over_rows(
    mem: &[u16],
    linear: bool,
    row: u32,
    w: Option<Window>,
    overlay: Option<OverlayHead>,
) -> Pointer
    ensures { (ws : List ℕ) → result ≡ over_rows linear mem.now row w (overlay_of linear overlay ws) }
{
    match overlay {
        None => Pointer::NULL,
        Some(_) => rows_of(mem, linear, row, w),
    }
}

// The row block of the window in hand: of one that is due, as its block says.
fn rows_of(mem: &[u16], linear: bool, row: u32, w: Option<Window>) -> Pointer
    ensures { result ≡ rows_of linear mem.now row w }
{
    match w {
        None => Pointer::NULL,
        Some(x) => {
            if (x.block.bottom as u32) < row {
                pointer_in(mem, linear, 2, x.block.link.address)
            } else {
                x.rows
            }
        }
    }
}

// The redefinition pointer of the row block at a pointer.
fn redefinition_of(mem: &[u16], linear: bool, p: Pointer) -> Pointer
    ensures { result ≡ redefinition_of linear mem.now p }
{
    if p.address == 0 {
        return Pointer::NULL;
    }
    if memory::bit_15(head_word(mem, linear, p)) {
        pointer_in(mem, linear, 3, p.address)
    } else {
        Pointer::NULL
    }
}

// The row block or window row block at a pointer. The next place.
fn put_block(
    mem: &[u16],
    linear: bool,
    redefines: bool,
    p: Pointer,
    at: usize,
    list: &mut [u32],
) -> usize
    requires { at + length (pointed linear (block_words redefines (head_word linear mem.now p)) p) ≤ length list.old }
    ensures value { result ≡ at + length (pointed linear (block_words redefines (head_word linear mem.now p)) p) }
    ensures list_after { list.new ≡ sets list.old at (pointed linear (block_words redefines (head_word linear mem.now p)) p) }
{
    let n = block_words(redefines, head_word(mem, linear, p));
    consecutive::put_pointed(linear, n, p, at, list)
}

// The third word of the block at a pointer.
fn head_word(mem: &[u16], linear: bool, p: Pointer) -> u16
    ensures { result ≡ head_word linear mem.now p }
{
    consecutive::word_in(mem, memory::words_ahead(linear, 2, p.address))
}

// How many words a block has whose third word is `w`.
fn block_words(redefines: bool, w: u16) -> usize
    ensures { (result ≡ block_words redefines w) × (result ≤ 80) }
{
    let segments = 5 * (w % 16) as usize;
    if redefines & memory::bit_15(w) {
        5 + segments
    } else {
        3 + segments
    }
}

// The pointer that stands in memory `k` words after the address `a`.
fn pointer_in(mem: &[u16], linear: bool, k: u32, a: u32) -> Pointer
    requires { k ≤ 100 }
    ensures { result ≡ pointer_in linear mem.now k a }
{
    let at = memory::words_ahead(linear, k, a);
    let first = consecutive::word_in(mem, at);
    let second = consecutive::word_in(mem, memory::words_ahead(linear, k + 1, a));
    memory::pointer_of(linear, at, first, second)
}
