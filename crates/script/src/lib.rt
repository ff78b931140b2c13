#![tactic(auto)]
// The script of the draw program: its records, read byte by byte, set settings and memory.
ghost use Rattle.std.specs.Prelude.{◌≡◌};
ghost use Rattle.memory.specs.Word.{when◌then◌else◌};
ghost use Rattle.script.specs.Records.{body_length, switched, registered, accepted, settings_after, memory_after};
ghost use Rattle.script.specs.Feeding.{beginning, counted, begun, taken, stepped, ended, step_of, feeding, at_end};
ghost use Rattle.script.specs.Script.{unset};

use settings::{Edition, Interlace, PointerWords, Settings};

// Where a script stands: its settings so far, the bytes read, and the record in hand.
#[derive(Clone, Copy)]
pub struct Script {
    pub settings: Settings,
    pub read: u64, // bytes read so far
    pub start: u64, // the offset of the record in hand
    pub kind: u8,
    pub left: u8, // bytes of its body that are still to come; 0 where no record is in hand
    pub body: u64, // its body so far, high byte first
}

// What bytes lead to: more are wanted, the draw, or the offset at which the script is refused.
#[derive(Clone, Copy)]
pub enum Step {
    More(Script),
    Draw(Settings),
    Refused(u64),
}

// The beginning of a script, with all settings 0.
pub fn begin() -> Script
    ensures { result ≡ beginning }
{
    let settings = no_settings();
    Script {
        settings,
        read: 0,
        start: 0,
        kind: 0,
        left: 0,
        body: 0,
    }
}

// The next bytes of a script, up to its draw or refusal; what they store goes to `mem`.
pub fn feed(script: Script, bytes: &[u8], mem: &mut [u16; 16384]) -> Step
    ensures { stepped result mem.new ≡ feeding bytes.now script mem.old }
{
    let mut s = script;
    for byte in bytes {
        match read_byte(s, *byte, mem) {
            Step::More(next) => s = next,
            stopped => return stopped,
        }
    }
    Step::More(s)
}

// The offset at which a script is refused when the input ends before its draw.
pub fn at_end(script: Script) -> u64
    ensures { result ≡ at_end script }
{
    script.read
}

// The next byte of a script. Here and below tests in their order, and no match on numbers: that took a third longer.
pub fn read_byte(script: Script, byte: u8, mem: &mut [u16; 16384]) -> Step
    ensures { stepped result mem.new ≡ step_of script byte mem.old }
{
    if script.left == 0 {
        return begin_record(script, byte);
    }
    let s = take(script, byte);
    if script.left == 1 {
        end_record(s, mem)
    } else {
        Step::More(s)
    }
}

// The byte of kind: a draw, a record in hand, or a refusal.
fn begin_record(s: Script, kind: u8) -> Step
    ensures { result ≡ begun s kind }
{
    if kind == 0 {
        return Step::Draw(s.settings);
    }
    if kind <= 3 {
        Step::More(Script {
            settings: s.settings,
            read: count(s.read),
            start: s.read,
            kind,
            left: body_length(kind),
            body: 0,
        })
    } else {
        Step::Refused(s.read)
    }
}

// A byte of the body.
fn take(s: Script, byte: u8) -> Script
    ensures { result ≡ taken s byte }
{
    Script {
        read: count(s.read),
        left: s.left.saturating_sub(1),
        body: s.body % 4294967296 * 256 + byte as u64,
        ..s
    }
}

// A record whose body is there: what it sets and stores, or its refusal.
fn end_record(s: Script, mem: &mut [u16; 16384]) -> Step
    ensures { stepped result mem.new ≡ ended s mem.old }
{
    if !is_accepted(s.kind, s.body) {
        return Step::Refused(s.start);
    }
    store(s.kind, s.body, mem);
    let settings = settings_after(s.kind, s.body, s.settings);
    Step::More(Script { settings, ..s })
}

// Is a record with this body accepted?
fn is_accepted(kind: u8, body: u64) -> bool
    ensures { result ≡ accepted kind body }
{
    let address = body / 65536;
    match kind {
        1 => address <= 0x18,
        2 => (address % 2 == 0) & (address / 2 < 16384),
        _ => body / 4 % 4 != 3,
    }
}

// The word of a record of kind 2, put in memory; an accepted one is inside.
fn store(kind: u8, body: u64, mem: &mut [u16])
    ensures { mem.new ≡ memory_after kind body mem.old }
{
    let i = (body / 65536 / 2) as usize;
    if (kind == 2) && (i < mem.len()) {
        mem[i] = (body % 65536) as u16;
    }
}

// The settings after a record of kind 1 or 3.
fn settings_after(kind: u8, body: u64, before: Settings) -> Settings
    ensures { result ≡ settings_after kind body before }
{
    match kind {
        1 => set_register(body / 65536, (body % 65536) as u16, before),
        2 => before,
        _ => set_switches(body, before),
    }
}

fn set_switches(switches: u64, s: Settings) -> Settings
    ensures { result ≡ switched switches s }
{
    Settings {
        linear: switches % 2 == 1,
        hidden: switches / 2 % 2 == 1,
        interlace: Interlace::from((switches / 4 % 4) as u32),
        cursor: switches / 16 % 2 == 1,
        ..s
    }
}

// A register's value, in the field or fields that it holds.
fn set_register(register: u64, v: u16, s: Settings) -> Settings
    ensures { result ≡ registered register v s }
{
    let top = PointerWords {
        first: pick(register == 0x09, v, s.top.first),
        second: pick(register == 0x0a, v, s.top.second),
    };
    let tow = PointerWords {
        first: pick(register == 0x0b, v, s.tow.first),
        second: pick(register == 0x0c, v, s.tow.second),
    };
    Settings {
        flag: pick(register == 0x08, v, s.flag),
        top,
        tow,
        vsw: pick(register == 0x11, v % 64, s.vsw),
        vsd: pick(register == 0x11, v / 64 % 64, s.vsd),
        val: pick(register == 0x12, v % 4096, s.val),
        vtot: pick(register == 0x13, v % 4096, s.vtot),
        hsync: pick(register == 0x14, v % 256, s.hsync),
        hsd: pick(register == 0x16, v % 512, s.hsd),
        htc: pick(register == 0x17, v % 1024, s.htc),
        htd: pick(register == 0x18, v % 1024, s.htd),
        ..s
    }
}

fn pick(test: bool, v: u16, other: u16) -> u16
    ensures { result ≡ (when test then v else other) }
{
    if test { v } else { other }
}

fn body_length(kind: u8) -> u8
    ensures { result ≡ body_length kind }
{
    match kind {
        1 => 3,
        2 => 5,
        _ => 1,
    }
}

// One byte more.
fn count(n: u64) -> u64
    ensures { result ≡ counted n }
{
    n.wrapping_add(1)
}

fn no_settings() -> Settings
    ensures { result ≡ unset }
{
    let none = PointerWords {
        first: 0,
        second: 0,
    };
    Settings {
        linear: false,
        hidden: false,
        interlace: Interlace::Progressive,
        cursor: false,
        flag: 0,
        top: none,
        tow: none,
        vsw: 0,
        vsd: 0,
        val: 0,
        vtot: 0,
        hsync: 0,
        hsd: 0,
        htc: 0,
        htd: 0,
        edition: Edition::Am8052,
    }
}
