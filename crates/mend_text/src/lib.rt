#![tactic(auto)]
// The text that the mending program prints before the draw program's: a line for each change.
ghost use Rattle.std.specs.Prelude.{◌≡◌};
ghost use Rattle.lines.specs.Lines.{Line};
ghost use Rattle.mend_text.specs.MendText.{change_line};
ghost use Rattle.mend_text.specs.NextChange.{next_change, answered, Next};

use lines::Piece;
use mending::{Change, MendAnswer};
use settings::Settings;

// The next change of a list: its line at the start of `out`, and the settings after it; or that there is nothing more to mend. The frame is the first one that a console draws: from latch 0.
pub fn next_change(
    settings: Settings,
    mem: &mut [u16],
    out: &mut [u8; 2048],
) -> Option<Piece<Settings>>
    ensures out_after { answered settings result mem.new out.new ≡ next_change settings mem.old }
    ensures next { Next settings mem.old result mem.new out.new }
{
    match mending::mend_step(settings, mem, 0) {
        MendAnswer::Whole | MendAnswer::Refused(_) => None,
        MendAnswer::Changed {
            change,
            settings: after,
        } => Some(Piece {
            count: change_line(change, out),
            after,
        }),
    }
}

// The line of a change.
pub fn change_line(change: Change, out: &mut [u8; 2048]) -> usize
    ensures { Line (change_line change) result out.new }
{
    let place = change.place;
    let mut at = lines::put_hex(out, 0, b"", 6, mending::place_address(place));
    at = lines::put_hex(out, at, b" ", 4, change.first as u32);
    at = lines::put_hex(out, at, b" ", 4, change.second as u32);
    at = lines::put_number(out, at, b" ", change.number as u64);
    lines::put_end(out, at)
}
