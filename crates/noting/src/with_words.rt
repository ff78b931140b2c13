// The codes of a segment with a list, code by code.
ghost use Rattle.std.specs.Prelude.{◌≡◌, true, ℕ, ◌+◌, ◌-◌, ◌*◌, ◌/◌, ◌≤◌, ◌<◌, length, get_or, set};
ghost use Rattle.memory.specs.Word.{when◌then◌else◌};
ghost use Rattle.memory.specs.Address.{further};
ghost use Rattle.memory.specs.Reading.{given};
ghost use Rattle.memory.specs.Answers.{is_run};
ghost use Rattle.codes.specs.Attribute.{invokes};
ghost use Rattle.codes.specs.Codes.{codes};
ghost use Rattle.codes.specs.Answers.{so_far};
ghost use Rattle.runs.specs.Runs.{examined, in_force, pen_of};
ghost use Rattle.noting.specs.Noting.{pointing, noted, noting};

use crate::places;
use codes::{CodeSettings, Pen, Reached, Room, attribute};
use memory::Pointer;
use runs::with_list;
use runs::with_list::Cursor;

// All codes of what is left of a segment.
pub(crate) fn draw_words(
    mem: &[u16],
    settings: CodeSettings,
    room: Room,
    count: u32,
    first: u32,
    pen: Pen,
    words: u32,
    cells: &mut [u32],
    list: &mut [u32],
) -> Reached
    requires end_in_bounds { (room.end ≤ length cells.old) × (pen.column ≤ room.end) × (count ≤ 255) × (words ≤ 4100000000) }
    requires linear_value { (settings.linear ≡ true) × (is_run settings.linear (length mem.now) first ((count + 1) / 2) ≡ true) × (pen.list.present ≡ true) × (is_run settings.linear (length mem.now) pen.list.next.address count ≡ true) }
    ensures column_le_end { (result.pen.column ≤ room.end) × (result.words ≤ words + (count + 1) / 2 + count) }
    ensures by_index { (from : ℕ) → noting words mem.now list.old (codes settings room.source room.end count (pointing first from) (so_far pen cells.old)) ≡ noted (given result.words (so_far result.pen cells.new)) list.new }
{
    let next = pen.list.next;
    let begun = with_list::cursor_of(settings.hidden, room, pen);
    let pairs = examine_pairs(
        mem, settings, room, count, first, next, begun, words, cells, list,
    );
    let cursor = examine_odd(
        mem, settings, room, count, first, next, pairs, words, cells, list,
    );
    Reached {
        pen: with_list::pen_of(true, next, cursor),
        words: words + (count + 1) / 2 + cursor.taken as u32,
    }
}

// Both codes of each word that `count` codes fill.
fn examine_pairs(
    mem: &[u16],
    settings: CodeSettings,
    room: Room,
    count: u32,
    first: u32,
    next: Pointer,
    begun: Cursor,
    words: u32,
    cells: &mut [u32],
    list: &mut [u32],
) -> Cursor
    requires end_in_bounds { (room.end ≤ length cells.old) × (begun.column ≤ room.end) × (begun.attribute ≡ in_force settings.hidden room.source room.end begun.latch) × (begun.taken ≡ 0) × (count ≤ 255) × (words ≤ 4100000000) }
    requires linear_value { (settings.linear ≡ true) × (is_run settings.linear (length mem.now) first ((count + 1) / 2) ≡ true) × (is_run settings.linear (length mem.now) next.address count ≡ true) }
    ensures column_le_end { (result.column ≤ room.end) × (result.attribute ≡ in_force settings.hidden room.source room.end result.latch) × (result.taken ≤ 2 * (count / 2)) }
    ensures by_index { (from : ℕ) → noting words mem.now list.old (codes settings room.source room.end count (pointing first from) (so_far (pen_of settings.linear next begun) cells.old)) ≡ noting (words + count / 2 + result.taken) mem.now list.new (codes settings room.source room.end (count - 2 * (count / 2)) (further settings.linear (count / 2) (pointing first from)) (so_far (pen_of settings.linear next result) cells.new)) }
{
    let from = (first / 2) as usize;
    let pairs = (count / 2) as usize;
    let mut cursor = begun;
    for (i, w) in mem[from..from + pairs].iter().enumerate() {
        let at = words as usize + i;
        places::note(first + 2 * i as u32, at + cursor.taken, list);
        let high = memory::high_byte(*w);
        cursor = examine(mem, settings, room, high, next, cursor, at + 1, cells, list);
        let low = memory::low_byte(*w);
        cursor = examine(mem, settings, room, low, next, cursor, at + 1, cells, list);
    }
    cursor
}

// The last code, where their count is odd.
fn examine_odd(
    mem: &[u16],
    settings: CodeSettings,
    room: Room,
    count: u32,
    first: u32,
    next: Pointer,
    cursor: Cursor,
    words: u32,
    cells: &mut [u32],
    list: &mut [u32],
) -> Cursor
    requires end_in_bounds { (room.end ≤ length cells.old) × (cursor.column ≤ room.end) × (cursor.attribute ≡ in_force settings.hidden room.source room.end cursor.latch) × (cursor.taken ≤ 2 * (count / 2)) × (count ≤ 255) × (words ≤ 4100000000) }
    requires linear_value { (settings.linear ≡ true) × (is_run settings.linear (length mem.now) first ((count + 1) / 2) ≡ true) × (is_run settings.linear (length mem.now) next.address count ≡ true) }
    ensures column_le_end { (result.column ≤ room.end) × (result.taken ≤ count) }
    ensures by_index { (from : ℕ) → noting (words + count / 2 + cursor.taken) mem.now list.old (codes settings room.source room.end (count - 2 * (count / 2)) (further settings.linear (count / 2) (pointing first from)) (so_far (pen_of settings.linear next cursor) cells.old)) ≡ noted (given (words + (count + 1) / 2 + result.taken) (so_far (pen_of settings.linear next result) cells.new)) list.new }
{
    if count % 2 == 1 {
        let pairs = (count / 2) as usize;
        let w = mem[(first / 2) as usize + pairs];
        let at = words as usize + pairs;
        places::note(first + count - 1, at + cursor.taken, list);
        let code = memory::high_byte(w);
        examine(mem, settings, room, code, next, cursor, at + 1, cells, list)
    } else {
        cursor
    }
}

// One code, whose list's next word is there: its address is noted where the code takes it.
fn examine(
    mem: &[u16],
    settings: CodeSettings,
    room: Room,
    code: u8,
    next: Pointer,
    cursor: Cursor,
    at: usize,
    cells: &mut [u32],
    list: &mut [u32],
) -> Cursor
    requires end_in_bounds { (room.end ≤ length cells.old) × (cursor.column ≤ room.end) × (cursor.attribute ≡ in_force settings.hidden room.source room.end cursor.latch) × (next.address / 2 + cursor.taken < length mem.now) × (cursor.taken ≤ 255) }
    requires taken_bound { (next.address + 2 * cursor.taken ≤ 4294967295) × (at ≤ 8000000000) }
    ensures column_le_end { (result.column ≤ room.end) × (result.attribute ≡ in_force settings.hidden room.source room.end result.latch) × (result.taken ≡ cursor.taken + (when invokes settings.flag code then 1 else 0)) }
    ensures cells_after { so_far (pen_of settings.linear next result) cells.new ≡ examined settings room.source room.end (get_or mem.now (next.address / 2 + cursor.taken) 0) code (so_far (pen_of settings.linear next cursor) cells.old) }
    ensures list_after { list.new ≡ (when invokes settings.flag code then set list.old (at + cursor.taken) (next.address + 2 * cursor.taken) else list.old) }
{
    if attribute::invokes(settings.flag, code) {
        let a = next.address;
        places::note(a + 2 * cursor.taken as u32, at + cursor.taken, list);
    }
    with_list::examine_listed(mem, settings, room, code, next, cursor, cells)
}
