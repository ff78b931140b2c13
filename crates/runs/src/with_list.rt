// The codes of a segment with a list.
ghost use Rattle.std.specs.Prelude.{◌≡◌, Bool, true, ℕ, ◌+◌, ◌-◌, ◌*◌, ◌/◌, ◌%◌, ◌≤◌, ◌<◌, length, get_or, drop, ltb};
ghost use Rattle.memory.specs.Word.{when◌then◌else◌};
ghost use Rattle.memory.specs.Reading.{each, given, run_from};
ghost use Rattle.memory.specs.Answers.{is_run};
ghost use Rattle.codes.specs.declared.Source.{Source};
ghost use Rattle.codes.specs.declared.Pen.{Pen};
ghost use Rattle.codes.specs.Attribute.{invokes};
ghost use Rattle.codes.specs.Codes.{moved_to, character, examine, codes};
ghost use Rattle.codes.specs.Answers.{so_far};
ghost use Rattle.runs.specs.Runs.{codes_in, examined, in_force, cursor_of, with_word, pen_of};

use codes::{AttributeList, CodeSettings, Pen, Reached, Room, attribute};
use memory::Pointer;

// What an attribute makes of a character: its cell's bits but the code's, and the column that it stands before.
#[derive(Clone, Copy)]
pub struct InForce {
    pub bits: u32,
    pub limit: usize,
}

// Where drawing stands in a segment: the pen, with the count of words taken of the list, and what the latch makes of a character.
#[derive(Clone, Copy)]
pub struct Cursor {
    pub column: usize,
    pub latch: u16,
    pub latched: bool,
    pub taken: usize,
    pub attribute: InForce,
}

// The codes of a segment with a list, where its words and as many of the list as there are codes stand one after the other in memory.
pub(crate) fn draw_with_list(
    mem: &[u16],
    settings: CodeSettings,
    room: Room,
    count: u32,
    p: Pointer,
    pen: Pen,
    words: u32,
    cells: &mut [u32],
) -> Reached
    requires end_in_bounds { (room.end ≤ length cells.old) × (pen.column ≤ room.end) × (count ≤ 255) × (words ≤ 4000000000) }
    requires present_value { (pen.list.present ≡ true) × (is_run settings.linear (length mem.now) p.address ((count + 1) / 2) ≡ true) × (is_run settings.linear (length mem.now) pen.list.next.address count ≡ true) }
    ensures within { (result.pen.column ≤ room.end) × (result.words ≤ words + 2 * count) }
    ensures cells_after { given result.words (so_far result.pen cells.new) ≡ run_from words mem.now (codes settings room.source room.end count p (so_far pen cells.old)) }
{
    let first = p.address;
    let at = (first / 2) as usize;
    let list = pen.list.next;
    let begun = cursor_of(settings.hidden, room, pen);
    let pairs = examine_pairs(mem, settings, room, count, at, list, begun, cells);
    let cursor = examine_odd(mem, settings, room, count, at, list, pairs, cells);
    Reached {
        pen: pen_of(settings.linear, list, cursor),
        words: words + (count + 1) / 2 + cursor.taken as u32,
    }
}

// Both codes of each word, of the words from number `at` on that `count` codes fill.
fn examine_pairs(
    mem: &[u16],
    settings: CodeSettings,
    room: Room,
    count: u32,
    at: usize,
    list: Pointer,
    begun: Cursor,
    cells: &mut [u32],
) -> Cursor
    requires end_in_bounds { (room.end ≤ length cells.old) × (begun.column ≤ room.end) × (begun.attribute ≡ in_force settings.hidden room.source room.end begun.latch) × (begun.taken ≡ 0) × (count ≤ 255) }
    requires count_in_bounds { (at + (count + 1) / 2 ≤ length mem.now) × (is_run settings.linear (length mem.now) list.address count ≡ true) }
    ensures column_le_end { (result.column ≤ room.end) × (result.attribute ≡ in_force settings.hidden room.source room.end result.latch) × (result.taken ≤ 2 * (count / 2)) }
    ensures by_index { (n : ℕ) → run_from n mem.now (each (examine settings room.source room.end) (codes_in (drop at mem.now) count) (so_far (pen_of settings.linear list begun) cells.old)) ≡ run_from (n + result.taken) mem.now (each (examine settings room.source room.end) (codes_in (drop (at + count / 2) mem.now) (count - 2 * (count / 2))) (so_far (pen_of settings.linear list result) cells.new)) }
{
    let pairs = (count / 2) as usize;
    let mut cursor = begun;
    for w in &mem[at..at + pairs] {
        let first = memory::high_byte(*w);
        cursor = examine_listed(mem, settings, room, first, list, cursor, cells);
        let second = memory::low_byte(*w);
        cursor = examine_listed(mem, settings, room, second, list, cursor, cells);
    }
    cursor
}

// The last code, where their count is odd.
fn examine_odd(
    mem: &[u16],
    settings: CodeSettings,
    room: Room,
    count: u32,
    at: usize,
    list: Pointer,
    cursor: Cursor,
    cells: &mut [u32],
) -> Cursor
    requires end_in_bounds { (room.end ≤ length cells.old) × (cursor.column ≤ room.end) × (cursor.attribute ≡ in_force settings.hidden room.source room.end cursor.latch) × (cursor.taken ≤ 2 * (count / 2)) × (count ≤ 255) }
    requires count_in_bounds { (at + (count + 1) / 2 ≤ length mem.now) × (is_run settings.linear (length mem.now) list.address count ≡ true) }
    ensures column_le_end { (result.column ≤ room.end) × (result.taken ≤ count) }
    ensures by_index { (n : ℕ) → run_from (n + cursor.taken) mem.now (each (examine settings room.source room.end) (codes_in (drop (at + count / 2) mem.now) (count - 2 * (count / 2))) (so_far (pen_of settings.linear list cursor) cells.old)) ≡ given (n + result.taken) (so_far (pen_of settings.linear list result) cells.new) }
{
    if count % 2 == 1 {
        let w = mem[at + (count / 2) as usize];
        let code = memory::high_byte(w);
        examine_listed(mem, settings, room, code, list, cursor, cells)
    } else {
        cursor
    }
}

// One code, whose list's next word is there.
pub fn examine_listed(
    mem: &[u16],
    settings: CodeSettings,
    room: Room,
    code: u8,
    list: Pointer,
    cursor: Cursor,
    cells: &mut [u32],
) -> Cursor
    requires { (room.end ≤ length cells.old) × (cursor.column ≤ room.end) × (cursor.attribute ≡ in_force settings.hidden room.source room.end cursor.latch) × (list.address / 2 + cursor.taken < length mem.now) × (cursor.taken ≤ 255) }
    ensures column_le_end { (result.column ≤ room.end) × (result.attribute ≡ in_force settings.hidden room.source room.end result.latch) × (result.taken ≡ cursor.taken + (when invokes settings.flag code then 1 else 0)) }
    ensures cells_after { so_far (pen_of settings.linear list result) cells.new ≡ examined settings room.source room.end (get_or mem.now (list.address / 2 + cursor.taken) 0) code (so_far (pen_of settings.linear list cursor) cells.old) }
{
    if attribute::invokes(settings.flag, code) {
        let first = list.address;
        let at = (first / 2) as usize + cursor.taken;
        let w = mem[at];
        let own = in_force(settings.hidden, room, w);
        let column = put_code(own, code, cursor.column, cells);
        with_word(w, own, column, cursor)
    } else {
        let attribute = cursor.attribute;
        let column = put_code(attribute, code, cursor.column, cells);
        Cursor { column, ..cursor }
    }
}

// The cursor at a column once it has taken the word `w` of the list, with what `w` makes of a character: bit 15 makes it the latch.
fn with_word(w: u16, own: InForce, column: usize, cursor: Cursor) -> Cursor
    requires { cursor.taken ≤ 4000000000 }
    ensures { result ≡ with_word w own column cursor }
{
    let taken = cursor.taken + 1;
    if memory::bit_15(w) {
        Cursor {
            column,
            latch: w,
            latched: true,
            taken,
            attribute: own,
        }
    } else {
        Cursor {
            column,
            taken,
            ..cursor
        }
    }
}

// The cursor where a segment begins, no word of its list taken.
pub fn cursor_of(hidden: bool, room: Room, pen: Pen) -> Cursor
    ensures { result ≡ cursor_of hidden room.source room.end pen }
{
    let attribute = in_force(hidden, room, pen.latch);
    Cursor {
        column: pen.column,
        latch: pen.latch,
        latched: pen.latched,
        taken: 0,
        attribute,
    }
}

// The pen where a segment ends, whose list begins at `list`.
pub fn pen_of(linear: bool, list: Pointer, cursor: Cursor) -> Pen
    requires { cursor.taken ≤ 4000000000 }
    ensures { result ≡ pen_of linear list cursor }
{
    let list = AttributeList {
        present: true,
        next: memory::further(linear, cursor.taken as u32, list),
    };
    Pen {
        column: cursor.column,
        latch: cursor.latch,
        latched: cursor.latched,
        list,
    }
}

fn in_force(hidden: bool, room: Room, attribute: u16) -> InForce
    ensures { result ≡ in_force hidden room.source room.end attribute }
{
    let source = room.source;
    let bits = attribute::cell(source, attribute, 0);
    if attribute::is_shown(hidden, attribute) {
        InForce {
            bits,
            limit: room.end,
        }
    } else {
        InForce { bits, limit: 0 }
    }
}

// A character at a column, unless it has to stand before it. Gives the column after it.
fn put_code(attribute: InForce, code: u8, column: usize, cells: &mut [u32]) -> usize
    requires { (attribute.limit ≤ length cells.old) × (attribute.bits % 256 ≡ 0) }
    ensures value { result ≡ (when ltb column attribute.limit then column + 1 else column) }
    ensures cells_after { (hidden : Bool) (source : Source) (end a : ℕ) (p : Pen) → attribute ≡ in_force hidden source end a → p.column ≡ column → end ≤ length cells.old → so_far (moved_to result p) cells.new ≡ character hidden source end a code (so_far p cells.old) }
{
    if column < attribute.limit {
        cells[column] = attribute.bits + code as u32;
        column + 1
    } else {
        column
    }
}
