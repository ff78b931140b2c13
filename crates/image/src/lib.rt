#![tactic(auto)]
// The image of a script: its switches, its 25 registers and its memory of 16,384 words, read from its records and written as records.
ghost use Rattle.std.specs.Prelude.{◌≡◌, ◌++◌, ◌+◌, ◌≤◌, ◌<◌, length, take, drop};
ghost use Rattle.settings.specs.Good.{interlace_number};
ghost use Rattle.lines.specs.Lines.{Line};
ghost use Rattle.image.specs.Image.{as_bit, switches_of};
ghost use Rattle.image.specs.Feeding.{registers_at, fed, byte_of, feeding};
ghost use Rattle.image.specs.Written.{register_record, word_record, value_text, values_text, head_text, draw_record};
ghost use Rattle.image.specs.ToCome.{Next, NextWords};

use lines::Piece;
use script::{Script, Step};
use settings::{Interlace, Settings};

// What of an image's script is still to come.
#[derive(Clone, Copy)]
pub enum Text {
    Head(u8), // all of it, with these switches
    Words(usize), // the records of the words from this number on
    Ended,
}

// The next bytes of a script, up to its draw or refusal; what they set goes to `registers`, what they store to `mem`.
pub fn feed(script: Script, bytes: &[u8], registers: &mut [u16; 25], mem: &mut [u16; 16384]) -> Step
    ensures { fed result registers.new mem.new ≡ feeding bytes.now script registers.old mem.old }
{
    let mut s = script;
    for &byte in bytes {
        match read_byte(s, byte, registers, mem) {
            Step::More(next) => s = next,
            ended => return ended,
        }
    }
    Step::More(s)
}

// The next byte of a script.
fn read_byte(script: Script, byte: u8, registers: &mut [u16; 25], mem: &mut [u16; 16384]) -> Step
    ensures { fed result registers.new mem.new ≡ byte_of script byte registers.old mem.old }
{
    match script::read_byte(script, byte, mem) {
        Step::More(next) => {
            note(next, registers);
            Step::More(next)
        }
        ended => ended,
    }
}

// The value of a register whose record has just ended, put in its place; an accepted one is inside.
fn note(s: Script, registers: &mut [u16])
    ensures { registers.new ≡ registers_at s registers.old }
{
    let i = (s.body / 65536) as usize;
    if s.kind == 1 && s.left == 0 && i < registers.len() {
        registers[i] = (s.body % 65536) as u16;
    }
}

// The switches of settings: bit 0 linear, 1 DH, 3..2 the interlace mode, 4 cursor.
pub fn switches_of(s: Settings) -> u8
    ensures { result ≡ switches_of s }
{
    s.linear as u8 + 2 * s.hidden as u8 + 4 * interlace_number(s.interlace) + 16 * s.cursor as u8
}

fn interlace_number(interlace: Interlace) -> u8
    ensures { (result ≡ interlace_number interlace) × (result ≤ 2) }
{
    match interlace {
        Interlace::Progressive => 0,
        Interlace::RepeatField => 1,
        Interlace::Video => 2,
    }
}

// The next piece of an image's script, at the start of `out`.
pub fn next(
    text: Text,
    registers: &[u16; 25],
    mem: &[u16; 16384],
    out: &mut [u8; 2048],
) -> Option<Piece<Text>>
    ensures { Next registers.now mem.now text result out.new }
{
    match text {
        Text::Head(switches) => Some(Piece {
            count: put_head(switches, registers, out),
            after: Text::Words(0),
        }),
        Text::Words(from) => next_words(from, mem, out),
        Text::Ended => None,
    }
}

// The records of the next 256 words; after the last word the draw.
fn next_words(from: usize, mem: &[u16; 16384], out: &mut [u8; 2048]) -> Option<Piece<Text>>
    ensures { NextWords mem.now from result out.new }
{
    if 16384 <= from {
        return Some(Piece {
            count: put_draw(out),
            after: Text::Ended,
        });
    }
    let end = (from + 256).min(16384);
    Some(Piece {
        count: put_words(from, end, mem, out),
        after: Text::Words(end),
    })
}

// The draw.
fn put_draw(out: &mut [u8; 2048]) -> usize
    ensures { Line draw_record result out.new }
{
    lines::put(out, 0, &[0])
}

// The switches and the registers.
fn put_head(switches: u8, registers: &[u16; 25], out: &mut [u8; 2048]) -> usize
    ensures { Line (head_text switches registers.now) result out.new }
{
    lines::put(out, 0, &[3, switches]);
    put_registers(registers, out)
}

// The records of the registers, after the first two bytes of `out`.
fn put_registers(registers: &[u16; 25], out: &mut [u8; 2048]) -> usize
    ensures { (result ≤ length out.new) × (take result out.new ≡ take 2 out.old ++ values_text register_record 0 registers.now) }
{
    let mut at = 2;
    for (i, &v) in registers.iter().enumerate() {
        at = put_register(out, at, i, v);
    }
    at
}

// The record of register i, unless it is 0, after the first `at` bytes of `out`.
fn put_register(out: &mut [u8], at: usize, i: usize, v: u16) -> usize
    requires { (at + 4 ≤ length out.old) × (i < 25) }
    ensures { (result ≤ at + 4) × (take result out.new ≡ take at out.old ++ value_text register_record i v) }
{
    if v == 0 {
        return at;
    }
    let record = [1u8, i as u8, memory::high_byte(v), memory::low_byte(v)];
    lines::put(out, at, &record)
}

// The records of the words from number `from` up to number `end`.
fn put_words(from: usize, end: usize, mem: &[u16; 16384], out: &mut [u8; 2048]) -> usize
    requires { (from ≤ end) × (end ≤ from + 256) × (end ≤ 16384) }
    ensures { (result ≤ length out.new) × (take result out.new ++ values_text word_record end (drop end mem.now) ≡ values_text word_record from (drop from mem.now)) }
{
    let mut at = 0;
    for i in from..end {
        at = put_word(out, at, i, mem[i]);
    }
    at
}

// The record of word i, unless it is 0, after the first `at` bytes of `out`.
fn put_word(out: &mut [u8], at: usize, i: usize, w: u16) -> usize
    requires { (at + 6 ≤ length out.old) × (i < 16384) }
    ensures { (result ≤ at + 6) × (take result out.new ≡ take at out.old ++ value_text word_record i w) }
{
    if w == 0 {
        return at;
    }
    let place = (2 * i) as u16;
    let record = [
        2u8,
        0,
        memory::high_byte(place),
        memory::low_byte(place),
        memory::high_byte(w),
        memory::low_byte(w),
    ];
    lines::put(out, at, &record)
}
