// The codes of a segment without a list: all have the latch.
ghost use Rattle.std.specs.Prelude.{◌≡◌, Bool, true, false, ◌||◌, not, ℕ, ◌+◌, ◌-◌, ◌*◌, ◌/◌, ◌≤◌, length, drop};
ghost use Rattle.memory.specs.Reading.{given, run_from};
ghost use Rattle.memory.specs.Answers.{is_run};
ghost use Rattle.codes.specs.Attribute.{ignores};
ghost use Rattle.codes.specs.Codes.{moved_to, codes};
ghost use Rattle.codes.specs.Answers.{so_far};
ghost use Rattle.runs.specs.Runs.{codes_in, characters};

use codes::{CodeSettings, Pen, Reached, Room, Source, attribute, pens};
use memory::Pointer;

// The codes of a segment without a list, where its words stand one after the other in memory.
pub(crate) fn draw_without_list(
    mem: &[u16],
    settings: CodeSettings,
    room: Room,
    count: u32,
    p: Pointer,
    pen: Pen,
    words: u32,
    cells: &mut [u32],
) -> Reached
    requires end_in_bounds { (room.end ≤ length cells.old) × (pen.column ≤ room.end) × (count ≤ 255) × (words ≤ 4000000000) }
    requires present_value { (pen.list.present ≡ false) × (is_run settings.linear (length mem.now) p.address ((count + 1) / 2) ≡ true) }
    ensures within { (result.pen.column ≤ room.end) × (result.words ≤ words + 2 * count) }
    ensures cells_after { given result.words (so_far result.pen cells.new) ≡ run_from words mem.now (codes settings room.source room.end count p (so_far pen cells.old)) }
{
    let first = p.address;
    let at = (first / 2) as usize;
    Reached {
        pen: draw_characters(mem, settings.hidden, room, count as usize, at, pen, cells),
        words: words + (count + 1) / 2,
    }
}

// The first `count` codes of the words from number `at` on, all with the latch.
pub fn draw_characters(
    mem: &[u16],
    hidden: bool,
    room: Room,
    count: usize,
    at: usize,
    pen: Pen,
    cells: &mut [u32],
) -> Pen
    requires { (room.end ≤ length cells.old) × (pen.column ≤ room.end) × (count ≤ 255) × (at + (count + 1) / 2 ≤ length mem.now) }
    ensures column_le_end { result.column ≤ room.end }
    ensures cells_after { so_far result cells.new ≡ characters hidden room.source room.end pen.latch (codes_in (drop at mem.now) count) (so_far pen cells.old) }
{
    if !attribute::is_shown(hidden, pen.latch) {
        return pen;
    }
    let end = room.end;
    let pairs = count.min(end - pen.column) / 2;
    let source = room.source;
    let after = draw_pairs(mem, source, at, pairs, pen, cells);
    if pairs * 2 < count {
        let code = memory::high_byte(mem[at + pairs]);
        pens::put_character(hidden, room, pen.latch, code, after, cells)
    } else {
        after
    }
}

// Both codes of each of the words from number `at` on, all with the latch.
fn draw_pairs(
    mem: &[u16],
    source: Source,
    at: usize,
    pairs: usize,
    pen: Pen,
    cells: &mut [u32],
) -> Pen
    requires { (pen.column + 2 * pairs ≤ length cells.old) × (at + pairs ≤ length mem.now) }
    ensures value { result ≡ moved_to (pen.column + 2 * pairs) pen }
    ensures cells_value { (hidden : Bool) (end count : ℕ) → hidden || not (ignores pen.latch) ≡ true → end ≤ length cells.old → pen.column + 2 * pairs ≤ end → 2 * pairs ≤ count → characters hidden source end pen.latch (codes_in (drop at mem.now) count) (so_far pen cells.old) ≡ characters hidden source end pen.latch (codes_in (drop (at + pairs) mem.now) (count - 2 * pairs)) (so_far result cells.new) }
{
    let bits = attribute::cell(source, pen.latch, 0);
    let column = pen.column;
    for i in 0..pairs {
        let w = mem[at + i];
        cells[column + 2 * i] = bits + memory::high_byte(w) as u32;
        cells[column + 2 * i + 1] = bits + memory::low_byte(w) as u32;
    }
    pens::moved_to(column + 2 * pairs, pen)
}
