// Settings and a state, from numbers at their places.
ghost use Rattle.std.specs.Prelude.{◌≡◌, ◌%◌, length};
ghost use Rattle.memory.specs.Word.{at, low};
ghost use Rattle.numbers.specs.Places.{within};
ghost use Rattle.numbers.specs.Decode.{held, modes_fit, htd_at, settings_at, settings_in, format_fits, window_fits, state_fits, lines_at, format_at, held_at, window_at, fields_at, state_at, unjudged_fit, is_state, state_in};

use blocks::{Cursor, FillMode, RowFormat};
use memory::Pointer;
use settings::{Edition, Interlace, PointerWords, Settings};
use state::{Fields, State};
use windows::{Window, WindowBlock};

// Settings from 18 numbers; other slices are none.
#[tactic(auto, unfolding(crate::specs::Decode::settings_in))]
pub fn settings_in(n: &[u32]) -> Option<Settings>
    ensures { result ≡ settings_in n.now }
{
    Some(settings_at(n.as_array()?))
}

// Settings from their numbers; one past its field's range makes settings that are not good.
pub fn settings_at(n: &[u32; 18]) -> Settings
    ensures { result ≡ settings_at n.now }
{
    let interlace = Interlace::from(n[2]);
    let edition = Edition::from(n[17]);
    let vsw = held(n[9]);
    let vsd = held(n[10]);
    let val = held(n[11]);
    let vtot = held(n[12]);
    let hsync = held(n[13]);
    let hsd = held(n[14]);
    let htc = held(n[15]);
    let htd = htd_at(n);
    let top = PointerWords {
        first: (n[5] % 65536) as u16,
        second: (n[6] % 65536) as u16,
    };
    let tow = PointerWords {
        first: (n[7] % 65536) as u16,
        second: (n[8] % 65536) as u16,
    };
    Settings {
        linear: n[0] == 1,
        hidden: n[1] == 1,
        interlace,
        cursor: n[3] == 1,
        flag: (n[4] % 65536) as u16,
        top,
        tow,
        vsw,
        vsd,
        val,
        vtot,
        hsync,
        hsd,
        htc,
        htd,
        edition,
    }
}

// HTD; 0, which is not good, where a number of a mode is past its field's range.
#[tactic(auto, unfolding(crate::specs::Decode::htd_at))]
fn htd_at(n: &[u32; 18]) -> u16
    ensures { result ≡ htd_at n.now }
{
    let htd = held(n[16]);
    if modes_fit(n) { htd } else { 0 }
}

// Every test of a range is made (`&`), so there is one way through.
#[tactic(auto, unfolding(crate::specs::Decode::modes_fit))]
fn modes_fit(n: &[u32; 18]) -> bool
    ensures { result ≡ modes_fit n.now }
{
    (n[0] <= 1)
        & (n[1] <= 1)
        & (n[3] <= 1)
        & (n[17] <= 1)
        & (n[2] <= 2)
        & (n[4] <= 65535)
        & (n[5] <= 65535)
        & (n[6] <= 65535)
        & (n[7] <= 65535)
        & (n[8] <= 65535)
}

// As much of a number as 16 bits hold.
fn held(number: u32) -> u16
    ensures { result ≡ held number }
{
    u16::try_from(number).unwrap_or(u16::MAX)
}

// A state from 23 numbers; other slices are none.
#[tactic(auto, unfolding(crate::specs::Decode::is_state, crate::specs::Decode::state_in))]
pub fn state_in(n: &[u32]) -> Option<State>
    ensures { result ≡ state_in n.now }
{
    state_from(n.as_array()?)
}

// A state from its numbers, where those that refusal 3 does not judge are in their fields' ranges.
pub fn state_from(n: &[u32; 23]) -> Option<State>
    ensures { result ≡ state_in n.now }
{
    if unjudged_fit(n) {
        Some(state_at(n))
    } else {
        None
    }
}

// Are the numbers that refusal 3 does not judge within their fields' ranges?
fn unjudged_fit(n: &[u32; 23]) -> bool
    ensures { result ≡ unjudged_fit n.now }
{
    (n[0] <= 65535) & (n[3] <= 255) & (n[4] <= 255) & (n[5] <= 255) & (n[6] <= 1) & (n[12] <= 1)
}

// A state, of each number as much as its field holds.
fn state_at(n: &[u32; 23]) -> State
    ensures { result ≡ state_at n.now }
{
    let fields = fields_at(n);
    State {
        latch: (n[0] % 65536) as u16,
        fields,
    }
}

// A state's fields but the latch.
#[tactic(auto, unfolding(crate::specs::Decode::fields_at))]
fn fields_at(n: &[u32; 23]) -> Fields
    ensures { result ≡ fields_at n.now }
{
    let left = held(n[2]);
    let cursor = Cursor {
        x: (n[3] % 256) as u8,
        y: (n[4] % 256) as u8,
    };
    let fill = FillMode {
        code: (n[5] % 256) as u8,
        flag: n[6] == 1,
    };
    let format = format_at(n);
    let next = Pointer {
        address: n[11],
        from: n[20],
    };
    let window = window_at(n);
    Fields {
        row: n[1],
        left,
        cursor,
        fill,
        format,
        next,
        window,
    }
}

// The format of rows, whose lines are out of range where it, or the window, is past a field's range.
#[tactic(auto, unfolding(crate::specs::Decode::format_at))]
fn format_at(n: &[u32; 23]) -> RowFormat
    ensures { result ≡ format_at n.now }
{
    let lines = lines_at(n);
    RowFormat {
        lines,
        attributes: (n[8] % 65536) as u16,
        curs: (n[9] % 256) as u8,
        cure: (n[10] % 256) as u8,
    }
}

// Scan lines; 0, which are out of range, where a number that refusal 3 judges is past its field's range.
#[tactic(auto, unfolding(crate::specs::Decode::lines_at))]
fn lines_at(n: &[u32; 23]) -> u8
    ensures { result ≡ lines_at n.now }
{
    if state_fits(n) { (n[7] % 256) as u8 } else { 0 }
}

// Are the numbers that refusal 3 judges within their fields' ranges? Those of a window are judged where there is one.
#[tactic(auto, unfolding(crate::specs::Decode::state_fits))]
fn state_fits(n: &[u32; 23]) -> bool
    ensures { result ≡ state_fits n.now }
{
    if n[12] == 1 {
        format_fits(n) & window_fits(n)
    } else {
        format_fits(n)
    }
}

// Those of the format.
fn format_fits(n: &[u32; 23]) -> bool
    ensures { result ≡ format_fits n.now }
{
    (n[7] <= 255) & (n[8] <= 65535) & (n[9] <= 255) & (n[10] <= 255)
}

// Those of a window.
fn window_fits(n: &[u32; 23]) -> bool
    ensures { result ≡ window_fits n.now }
{
    (n[13] <= 255) & (n[14] <= 255) & (n[15] <= 255) & (n[16] <= 255) & (n[19] <= 255)
}

// The window in hand, where there is one.
#[tactic(auto, unfolding(crate::specs::Decode::window_at))]
fn window_at(n: &[u32; 23]) -> Option<Window>
    ensures { result ≡ window_at n.now }
{
    if n[12] == 1 { Some(held_at(n)) } else { None }
}

// The numbers of a window.
fn held_at(n: &[u32; 23]) -> Window
    ensures { result ≡ held_at n.now }
{
    let link = Pointer {
        address: n[18],
        from: n[22],
    };
    let block = WindowBlock {
        number: (n[19] % 256) as u8,
        top: (n[13] % 256) as u8,
        bottom: (n[14] % 256) as u8,
        left: (n[15] % 256) as u8,
        right: (n[16] % 256) as u8,
        link,
    };
    let rows = Pointer {
        address: n[17],
        from: n[21],
    };
    Window { block, rows }
}

// As many numbers as limits, and none above its limit.
pub fn within(limits: &[u32], numbers: &[u32]) -> bool
    ensures { result ≡ within limits.now numbers.now }
{
    if numbers.len() != limits.len() {
        return false;
    }
    for i in 0..limits.len() {
        if limits[i] < numbers[i] {
            return false;
        }
    }
    true
}
