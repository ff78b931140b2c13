#![tactic(auto)]
// Window blocks, and the window in hand.
ghost use Rattle.std.specs.Prelude.{◌≡◌, ◌&&◌, ◌≤◌, leb};
ghost use Rattle.memory.specs.Reading.{run};
ghost use Rattle.windows.specs.Window.{window_of, in_order, window_at, first_window, due_window};
ghost use Rattle.windows.specs.Answers.{window_read, Numbered};

use memory::{Fault, Pointer};

// What a window keeps while it is in hand: its number along the chain, its rows and columns, first and last, and the next window block.
#[derive(Clone, Copy, PartialEq, Eq)]
pub struct WindowBlock {
    pub number: u8,
    pub top: u8,
    pub bottom: u8,
    pub left: u8,
    pub right: u8,
    pub link: Pointer,
}

// A window: its block, and its next row block.
#[derive(Clone, Copy, PartialEq, Eq)]
pub struct Window {
    pub block: WindowBlock,
    pub rows: Pointer,
}

// The window in hand with the words read for it, or a refusal.
#[derive(Clone, Copy)]
pub struct WindowRead {
    pub window: Option<Window>,
    pub words: u32,
}

// The first window, from the pointer to its block.
pub fn first_window(mem: &[u16], linear: bool, p: Pointer) -> Result<WindowRead, Fault>
    ensures { window_read result ≡ run mem.now (first_window linear p) }
{
    window_at(mem, linear, 0, 0, p)
}

// The window in hand for a row: the next one where the row has passed the last row of this one.
pub fn due_window(
    mem: &[u16],
    linear: bool,
    row: u32,
    in_hand: Option<Window>,
) -> Result<WindowRead, Fault>
    requires { Numbered in_hand }
    ensures { window_read result ≡ run mem.now (due_window linear row in_hand) }
{
    match in_hand {
        None => Ok(WindowRead {
            window: None,
            words: 0,
        }),
        Some(w) => {
            if (w.block.bottom as u32) < row {
                let link = w.block.link;
                let number = w.block.number as u16 + 1;
                window_at(mem, linear, number, w.block.bottom as u32 + 1, link)
            } else {
                Ok(WindowRead {
                    window: Some(w),
                    words: 0,
                })
            }
        }
    }
}

// Are the window's rows and columns in order and in range?
pub fn in_order(b: WindowBlock) -> bool
    ensures { result ≡ in_order b }
{
    (b.top <= b.bottom) & (b.left <= b.right) & (b.right <= 131)
}

// The window whose block a pointer leads to, none where that is null; its first row is `least` or a later one. A number is at most
// `least`, so it fits eight bits where the window may follow.
fn window_at(
    mem: &[u16],
    linear: bool,
    number: u16,
    least: u32,
    p: Pointer,
) -> Result<WindowRead, Fault>
    requires { number ≤ least }
    ensures { window_read result ≡ run mem.now (window_at linear number least p) }
{
    if p.address == 0 {
        return Ok(WindowRead {
            window: None,
            words: 0,
        });
    }
    let mut b = [0u16; 6];
    memory::read_words(mem, linear, p, &mut b)?;
    let w = window_of(linear, memory::low_byte(number), p.address, &b);
    let block = w.block;
    if may_follow(least, block) {
        Ok(WindowRead {
            window: Some(w),
            words: 6,
        })
    } else {
        Err(memory::blame(8, p))
    }
}

// Is the window in order, and its first row `least` or a later one?
fn may_follow(least: u32, b: WindowBlock) -> bool
    ensures { result ≡ in_order b && leb least b.top }
{
    in_order(b) & (least <= b.top as u32)
}

// The window of a block, from its number, its address and its words.
fn window_of(linear: bool, number: u8, at: u32, b: &[u16; 6]) -> Window
    ensures { result ≡ window_of linear number at b.now }
{
    let block = WindowBlock {
        number,
        top: memory::high_byte(b[4]),
        bottom: memory::low_byte(b[4]),
        left: memory::high_byte(b[5]),
        right: memory::low_byte(b[5]),
        link: memory::pointer_of(linear, at, b[0], b[1]),
    };
    Window {
        block,
        rows: memory::pointer_of(linear, memory::words_ahead(linear, 2, at), b[2], b[3]),
    }
}
