#![tactic(auto)]
// The codes of a segment, faster where their words stand one after the other in memory.
ghost use Rattle.std.specs.Prelude.{◌≡◌, ◌+◌, ◌*◌, ◌≤◌, length};
ghost use Rattle.memory.specs.Reading.{run_from};
ghost use Rattle.codes.specs.Codes.{codes};
ghost use Rattle.codes.specs.Answers.{so_far, drawn, Within};

use codes::{CodeSettings, Pen, Reached, Room, word_by_word};
use memory::{Fault, Pointer};

pub mod with_list; // the codes of a segment with a list
pub mod without_list; // those of a segment without one

// The codes of a segment: two to a word, the high byte first. Where its words stand one after the other in memory, and those of its
// list too, as many as there are codes, none is missing and no address wraps.
pub fn draw_codes(
    mem: &[u16],
    settings: CodeSettings,
    room: Room,
    count: u32,
    p: Pointer,
    pen: Pen,
    words: u32,
    cells: &mut [u32],
) -> Result<Reached, Fault>
    requires { (room.end ≤ length cells.old) × (pen.column ≤ room.end) × (count ≤ 255) × (words ≤ 4000000000) }
    ensures within { Within room.end (words + 2 * count) result }
    ensures cells_after { drawn result cells.new ≡ run_from words mem.now (codes settings room.source room.end count p (so_far pen cells.old)) }
{
    if count == 0 {
        return Ok(Reached { pen, words });
    }
    if memory::is_run(mem, settings.linear, p.address, (count as usize + 1) / 2) {
        if !pen.list.present {
            return Ok(without_list::draw_without_list(
                mem, settings, room, count, p, pen, words, cells,
            ));
        }
        if memory::is_run(mem, settings.linear, pen.list.next.address, count as usize) {
            return Ok(with_list::draw_with_list(mem, settings, room, count, p, pen, words, cells));
        }
    }
    word_by_word::draw_word_by_word(mem, settings, room, count, p, pen, words, cells)
}
