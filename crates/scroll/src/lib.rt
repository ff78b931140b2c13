#![tactic(auto)]
// Soft scroll of the background: the shift call, before each frame.
ghost use Rattle.std.specs.Prelude.{◌≡◌, true, ◌≤◌, ◌<◌, ◌/◌, ◌%◌, nat_abs};
ghost use Rattle.memory.specs.Word.{bit};
ghost use Rattle.memory.specs.Reading.{run};
ghost use Rattle.scroll.specs.Rate.{rate};
ghost use Rattle.scroll.specs.Scroll.{signed, direction_of, fits_direction, in_range, from_last, moved, shifted, reached, first_lines, edge_lines, shift_by, shift_from, shift_answered, shift_call};
ghost use Rattle.scroll.specs.Answers.{lines_read, Small};

use background::BackgroundRead;
use blocks::MainBlock;
use memory::{Fault, Refusal};
use settings::{PointerWords, Settings};

// A scroll between two frames: the shift in scan lines, positive up and negative down; the phase, frames since the last move; the
// direction, 1 up and 0 down.
#[derive(Clone, Copy)]
pub struct Scroll {
    pub shift: i32,
    pub phase: u32,
    pub direction: u32,
}

// What a shift call gives: the scroll, and the two words of the hard top.
#[derive(Clone, Copy)]
pub struct FrameShift {
    pub scroll: Scroll,
    pub top: PointerWords,
}

// A rate: it moves its lines once in its frames.
#[derive(Clone, Copy)]
pub struct Rate {
    pub lines: u32,
    pub frames: u32,
}

// The scan lines that a shift has moved, either way, and the phase.
#[derive(Clone, Copy)]
pub struct Offset {
    pub lines: u32,
    pub phase: u32,
}

// The shift of the next frame from the last one, with the hard top: the settings' TOP, or the soft top where a scroll ends.
pub fn shift(
    settings: Settings,
    mem: &[u16],
    soft: PointerWords,
    last: Scroll,
) -> Result<FrameShift, Refusal>
    ensures { result ≡ shift_call settings mem.now soft last }
{
    memory::told_in(0, settings::check_settings(settings))?;
    shift_from(settings, mem, soft, last)
}

// The rest of a shift call, once its settings are checked: the last shift, and the hard top's main block.
fn shift_from(
    settings: Settings,
    mem: &[u16],
    soft: PointerWords,
    last: Scroll,
) -> Result<FrameShift, Refusal>
    ensures { result ≡ shift_answered (run mem.now (shift_from settings soft last)) }
{
    if !in_range(last) {
        return memory::refused(3);
    }
    let top = settings.top;
    let hard = memory::told_in(0, start::top_block(mem, settings.linear, top))?;
    shift_by(settings, mem, soft, last, hard)
}

// The rest of a shift call, once the hard top's main block is read.
fn shift_by(
    settings: Settings,
    mem: &[u16],
    soft: PointerWords,
    last: Scroll,
    hard: MainBlock,
) -> Result<FrameShift, Refusal>
    requires { in_range last ≡ true }
    ensures { result ≡ shift_answered (run mem.now (shift_by settings soft last hard)) }
{
    let top = settings.top;
    let up = is_up(hard.m4);
    if !is_enabled(hard.m4) {
        let still = Offset { lines: 0, phase: 0 };
        return Ok(shifted(up, still, top));
    }
    let lines = memory::told_in(0, edge_lines(mem, settings.linear, soft, hard))?;
    let last_moved = from_last(up, last);
    let now_moved = moved(rate_of(hard.m4), last_moved);
    Ok(reached(up, lines, top, soft, now_moved))
}

// The scan lines of the row that leaves or enters.
fn edge_lines(mem: &[u16], linear: bool, soft: PointerWords, hard: MainBlock) -> Result<u8, Fault>
    ensures { result ≡ lines_read (run mem.now (edge_lines linear soft hard)) }
{
    if is_up(hard.m4) {
        return first_lines(mem, linear, hard);
    }
    let main = start::top_block(mem, linear, soft)?;
    first_lines(mem, linear, main)
}

// The scan lines of a list's first row.
fn first_lines(mem: &[u16], linear: bool, main: MainBlock) -> Result<u8, Fault>
    ensures { result ≡ lines_read (run mem.now (first_lines linear main)) }
{
    let rows = main.rows;
    let format = start::first_format(main.lines);
    let mut back = [0u16; 75];
    let BackgroundRead { block: _, format } = background::background_block(
        mem, linear, rows, format, &mut back,
    )?;
    Ok(format.lines)
}

// M4's bit 14.
fn is_enabled(m4: u16) -> bool
    ensures { result ≡ bit 14 m4 }
{
    m4 / 16384 % 2 == 1
}

// M4's bit 13.
fn is_up(m4: u16) -> bool
    ensures { result ≡ bit 13 m4 }
{
    m4 / 8192 % 2 == 1
}

// The rate of M4's bits 11 to 8.
fn rate_of(m4: u16) -> Rate
    ensures { result ≡ rate (m4 / 256 % 16) }
{
    let n = m4 as u32 / 256 % 16;
    if n < 8 {
        Rate {
            lines: n + 1,
            frames: 1,
        }
    } else {
        Rate {
            lines: 1,
            frames: n - 7,
        }
    }
}

// Is the last shift in range?
fn in_range(last: Scroll) -> bool
    ensures { result ≡ in_range last }
{
    fits_direction(last.direction, last.shift) & (last.phase <= 7)
}

// Is the shift within 31 lines of 0, and not against the direction?
fn fits_direction(direction: u32, shift: i32) -> bool
    ensures { result ≡ fits_direction direction shift }
{
    ((direction == 1) & (0 <= shift) & (shift <= 31))
        | ((direction == 0) & (-31 <= shift) & (shift <= 0))
}

// The lines and the phase that a call starts from.
fn from_last(up: bool, last: Scroll) -> Offset
    requires { in_range last ≡ true }
    ensures { (result ≡ from_last up last) × Small result }
{
    if last.direction == direction_of(up) {
        Offset {
            lines: lines_of(last.shift),
            phase: last.phase,
        }
    } else {
        Offset { lines: 0, phase: 0 }
    }
}

// The direction as a number.
fn direction_of(up: bool) -> u32
    ensures { result ≡ direction_of up }
{
    if up { 1 } else { 0 }
}

// The lines of a shift, either way.
fn lines_of(shift: i32) -> u32
    requires { nat_abs shift ≤ 31 }
    ensures { result ≡ nat_abs shift }
{
    shift.unsigned_abs()
}

// The shift of some lines, positive up and negative down.
fn signed(up: bool, lines: u32) -> i32
    requires { lines ≤ 39 }
    ensures { result ≡ signed up lines }
{
    if up { lines as i32 } else { 0 - lines as i32 }
}

// One frame further at a rate.
fn moved(r: Rate, g: Offset) -> Offset
    requires { (r.lines ≤ 8) × Small g }
    ensures { result ≡ moved r g }
{
    if r.frames <= g.phase + 1 {
        Offset {
            lines: g.lines + r.lines,
            phase: 0,
        }
    } else {
        Offset {
            lines: g.lines,
            phase: g.phase + 1,
        }
    }
}

// The shift after some lines moved.
fn shifted(up: bool, g: Offset, top: PointerWords) -> FrameShift
    requires { g.lines ≤ 39 }
    ensures { result ≡ shifted up g top }
{
    let scroll = Scroll {
        shift: signed(up, g.lines),
        phase: g.phase,
        direction: direction_of(up),
    };
    FrameShift { scroll, top }
}

// The shift after a move, or the end of the scroll where that reaches the row's lines.
fn reached(up: bool, lines: u8, hard: PointerWords, soft: PointerWords, g: Offset) -> FrameShift
    requires { g.lines ≤ 39 }
    ensures { result ≡ reached up lines hard soft g }
{
    if lines as u32 <= g.lines {
        let still = Offset { lines: 0, phase: 0 };
        shifted(up, still, soft)
    } else {
        shifted(up, g, hard)
    }
}
