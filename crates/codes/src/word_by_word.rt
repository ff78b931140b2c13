// The codes of a segment, word by word: each takes its attribute and becomes a character of the row, unless it is ignored or dropped.
ghost use Rattle.std.specs.Prelude.{◌≡◌, [], ◌∷◌, ◌+◌, ◌*◌, ◌≤◌, ◌<◌, min, length, get_or};
ghost use Rattle.memory.specs.Word.{high, low};
ghost use Rattle.memory.specs.Reading.{run_from};
ghost use Rattle.codes.specs.Codes.{character, examine, word_codes, codes};
ghost use Rattle.codes.specs.Answers.{so_far, drawn, Within};

use crate::{CodeSettings, Pen, Reached, Room, attribute, pens};
use memory::{Fault, Pointer};

// The codes of a segment, word by word: two to a word, the high byte first.
pub fn draw_word_by_word(
    mem: &[u16],
    settings: CodeSettings,
    room: Room,
    count: u32,
    p: Pointer,
    pen: Pen,
    words: u32,
    cells: &mut [u32],
) -> Result<Reached, Fault>
    requires { (room.end ≤ length cells.old) × (pen.column ≤ room.end) × (count ≤ 255) × (words ≤ 4000000000) }
    ensures within { Within room.end (words + 2 * count) result }
    ensures cells_after { drawn result cells.new ≡ run_from words mem.now (codes settings room.source room.end count p (so_far pen cells.old)) }
{
    let mut left = count;
    let mut at = p;
    let mut current = pen;
    let mut read = words;
    while 0 < left {
        let Some(w) = memory::word_at(mem, at.address) else {
            return Err(memory::missing(at));
        };
        let n = left.min(2);
        let word = draw_word(mem, settings, room, w, n, current, read + 1, cells)?;
        current = word.pen;
        read = word.words;
        at = memory::onward(settings.linear, at);
        left -= n;
    }
    Ok(Reached {
        pen: current,
        words: read,
    })
}

// The first `n` of a word's two codes. One call for both keeps the loop over the codes in one piece.
fn draw_word(
    mem: &[u16],
    settings: CodeSettings,
    room: Room,
    w: u16,
    n: u32,
    pen: Pen,
    words: u32,
    cells: &mut [u32],
) -> Result<Reached, Fault>
    requires { (room.end ≤ length cells.old) × (pen.column ≤ room.end) × (n ≤ 2) × (words ≤ 4100000000) }
    ensures within { Within room.end (words + n) result }
    ensures cells_after { drawn result cells.new ≡ run_from words mem.now (word_codes settings room.source room.end n w (so_far pen cells.old)) }
{
    let mut current = pen;
    let mut read = words;
    for i in 0..n {
        let code = code_at(w, i);
        let examined = examine_code(mem, settings, room, code, current, read, cells)?;
        current = examined.pen;
        read = examined.words;
    }
    Ok(Reached {
        pen: current,
        words: read,
    })
}

// One code: its attribute, and its character in the row unless it is ignored or dropped.
fn examine_code(
    mem: &[u16],
    settings: CodeSettings,
    room: Room,
    code: u8,
    pen: Pen,
    words: u32,
    cells: &mut [u32],
) -> Result<Reached, Fault>
    requires { (room.end ≤ length cells.old) × (pen.column ≤ room.end) × (words ≤ 4200000000) }
    ensures within { Within room.end (words + 1) result }
    ensures cells_after { drawn result cells.new ≡ run_from words mem.now (examine settings room.source room.end code (so_far pen cells.old)) }
{
    if attribute::invokes(settings.flag, code) & pen.list.present {
        let next = pen.list.next;
        let Some(w) = memory::word_at(mem, next.address) else {
            return Err(memory::missing(next));
        };
        let taken = pens::take_word(settings.linear, w, pen);
        Ok(Reached {
            pen: pens::put_character(settings.hidden, room, w, code, taken, cells),
            words: words + 1,
        })
    } else {
        Ok(Reached {
            pen: pens::put_character(settings.hidden, room, pen.latch, code, pen, cells),
            words,
        })
    }
}

// Code `i` of a word, the high byte first.
fn code_at(w: u16, i: u32) -> u8
    requires { i < 2 }
    ensures { result ≡ get_or (high w ∷ low w ∷ []) i 0 }
{
    if i == 0 {
        memory::high_byte(w)
    } else {
        memory::low_byte(w)
    }
}
