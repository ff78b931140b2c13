#![tactic(auto)]
// The codes of a segment whose words are all there, with the addresses of the words that they read noted in a list.
ghost use Rattle.std.specs.Prelude.{◌≡◌, ◌&&◌, true, false, ℕ, ◌+◌, ◌*◌, ◌/◌, ◌≤◌, length};
ghost use Rattle.memory.specs.Reading.{given};
ghost use Rattle.memory.specs.Answers.{is_run};
ghost use Rattle.codes.specs.Codes.{codes};
ghost use Rattle.codes.specs.Answers.{so_far};
ghost use Rattle.noting.specs.Noting.{pointing, noted, noting, some_invoke};

use codes::{CodeSettings, Pen, Reached, Room};

pub mod places; // addresses at places of a list
pub mod plain; // words without a code that invokes
mod with_words; // codes that take words of a list

// Codes that all have the latch: without a list, or none of which invokes.
pub fn draw_plain(
    mem: &[u16],
    settings: CodeSettings,
    room: Room,
    count: u32,
    first: u32,
    pen: Pen,
    words: u32,
    cells: &mut [u32],
    list: &mut [u32],
) -> Reached
    requires end_in_bounds { (room.end ≤ length cells.old) × (pen.column ≤ room.end) × (count ≤ 255) × (words ≤ 4000000000) }
    requires linear_value { (settings.linear ≡ true) × (is_run settings.linear (length mem.now) first ((count + 1) / 2) ≡ true) × (pen.list.present && some_invoke settings.flag mem.now (first / 2) ((count + 1) / 2) ≡ false) }
    ensures column_le_end { (result.pen.column ≤ room.end) × (result.words ≡ words + (count + 1) / 2) × (result.pen.list ≡ pen.list) }
    ensures by_index { (from : ℕ) → noting words mem.now list.old (codes settings room.source room.end count (pointing first from) (so_far pen cells.old)) ≡ noted (given result.words (so_far result.pen cells.new)) list.new }
{
    let n = (count + 1) / 2;
    places::note_run(n as usize, first, words as usize, list);
    Reached {
        pen: runs::without_list::draw_characters(
            mem,
            settings.hidden,
            room,
            count as usize,
            (first / 2) as usize,
            pen,
            cells,
        ),
        words: words + n,
    }
}

// The codes of a segment with a list, as many of whose words as there are codes are there: those before one that invokes first.
pub fn draw_listed(
    mem: &[u16],
    settings: CodeSettings,
    room: Room,
    count: u32,
    first: u32,
    pen: Pen,
    words: u32,
    cells: &mut [u32],
    list: &mut [u32],
) -> Reached
    requires end_in_bounds { (room.end ≤ length cells.old) × (pen.column ≤ room.end) × (count ≤ 255) × (words ≤ 4000000000) }
    requires linear_value { (settings.linear ≡ true) × (is_run settings.linear (length mem.now) first ((count + 1) / 2) ≡ true) × (pen.list.present ≡ true) × (is_run settings.linear (length mem.now) pen.list.next.address count ≡ true) }
    ensures column_le_end { (result.pen.column ≤ room.end) × (result.words ≤ words + 2 * count) }
    ensures by_index { (from : ℕ) → noting words mem.now list.old (codes settings room.source room.end count (pointing first from) (so_far pen cells.old)) ≡ noted (given result.words (so_far result.pen cells.new)) list.new }
{
    let k = plain::plain_words(
        mem,
        settings.flag,
        (first / 2) as usize,
        (count / 2) as usize,
    );
    let front = 2 * k as u32;
    let drawn = draw_front(mem, settings, room, front, first, pen, words, cells, list);
    let after = drawn.pen;
    with_words::draw_words(
        mem,
        settings,
        room,
        count - front,
        first + front,
        after,
        drawn.words,
        cells,
        list,
    )
}

// The codes before one that invokes, if there are any. The test stands here: a segment without such codes is spared the rest.
fn draw_front(
    mem: &[u16],
    settings: CodeSettings,
    room: Room,
    count: u32,
    first: u32,
    pen: Pen,
    words: u32,
    cells: &mut [u32],
    list: &mut [u32],
) -> Reached
    requires end_in_bounds { (room.end ≤ length cells.old) × (pen.column ≤ room.end) × (count ≤ 255) × (words ≤ 4000000000) }
    requires linear_value { (settings.linear ≡ true) × (is_run settings.linear (length mem.now) first ((count + 1) / 2) ≡ true) × (pen.list.present && some_invoke settings.flag mem.now (first / 2) ((count + 1) / 2) ≡ false) }
    ensures column_le_end { (result.pen.column ≤ room.end) × (result.words ≡ words + (count + 1) / 2) × (result.pen.list ≡ pen.list) }
    ensures by_index { (from : ℕ) → noting words mem.now list.old (codes settings room.source room.end count (pointing first from) (so_far pen cells.old)) ≡ noted (given result.words (so_far result.pen cells.new)) list.new }
{
    if count == 0 {
        Reached { pen, words }
    } else {
        draw_plain(mem, settings, room, count, first, pen, words, cells, list)
    }
}
