// The window on a row.
ghost use Rattle.std.specs.Prelude.{◌≡◌, ◌&&◌, List, ℕ, ◌+◌, ◌-◌, leb};
ghost use Rattle.memory.specs.Reading.{run};
ghost use Rattle.blocks.specs.RowBlock.{segments_of};
ghost use Rattle.layout.specs.Layout.{edges_fit};
ghost use Rattle.layout.specs.Overlay.{with_rows, window_row, overlaid};
ghost use Rattle.layout.specs.Answers.{overlay_of, overlay_read};

use crate::OverlayHead;
use blocks::SegmentCount;
use memory::{Fault, Pointer};
use settings::Settings;
use windows::{Window, WindowBlock};

// The window on a row, and the window in hand after it.
#[derive(Clone, Copy)]
pub struct OverlayRead {
    pub overlay: Option<OverlayHead>,
    pub window: Option<Window>,
    pub words: u32,
}

// The window in hand on its rows; no window on others.
pub fn overlay_row(
    mem: &[u16],
    settings: Settings,
    row: u32,
    in_hand: Option<Window>,
    over: &mut [u16; 75],
) -> Result<OverlayRead, Fault>
    ensures { overlay_read settings.linear result over.new ≡ run mem.now (overlaid settings row in_hand) }
{
    match in_hand {
        None => Ok(OverlayRead {
            overlay: None,
            window: None,
            words: 0,
        }),
        Some(w) => {
            let block = w.block;
            if on_rows(block, row) {
                window_row(mem, settings, w, over)
            } else {
                Ok(OverlayRead {
                    overlay: None,
                    window: Some(w),
                    words: 0,
                })
            }
        }
    }
}

// Are the window's edges on boundaries of the background segments? Its own segments do not matter.
pub fn edges_fit(
    linear: bool,
    hidden: bool,
    overlay: Option<OverlayHead>,
    back: &[u16; 75],
    count: SegmentCount,
) -> bool
    ensures { (ws : List ℕ) → result ≡ edges_fit hidden (overlay_of linear overlay ws) (segments_of linear count back.now) }
{
    match overlay {
        None => true,
        Some(o) => {
            crate::is_boundary(linear, hidden, back, count, o.first)
                & crate::is_boundary(linear, hidden, back, count, o.end)
        }
    }
}

// Is the row one of the window's?
fn on_rows(b: WindowBlock, row: u32) -> bool
    ensures { result ≡ leb b.top row && leb row b.bottom }
{
    (b.top as u32 <= row) & (row <= b.bottom as u32)
}

// The window's row block; then checks 9 and 11 on its segments.
fn window_row(
    mem: &[u16],
    settings: Settings,
    w: Window,
    over: &mut [u16; 75],
) -> Result<OverlayRead, Fault>
    ensures { overlay_read settings.linear result over.new ≡ run mem.now (window_row settings w) }
{
    let rows = w.rows;
    let b = blocks::window_row_block(mem, settings.linear, rows, over)?;
    let count = b.count;
    let m = crate::measure_segments(settings.linear, settings.hidden, over, count);
    if !m.fit {
        return Err(memory::blame(9, rows));
    }
    let block = w.block;
    if columns(block) < m.width {
        return Err(memory::fault_of(11));
    }
    let overlay = Some(OverlayHead {
        number: w.block.number,
        first: w.block.left as usize,
        end: w.block.right as usize + 1,
        count,
    });
    let link = b.link;
    let window = Some(with_rows(link, w));
    Ok(OverlayRead {
        overlay,
        window,
        words: b.words,
    })
}

// How many columns the window has: none where they are out of order.
fn columns(b: WindowBlock) -> usize
    ensures { result ≡ b.right + 1 - b.left }
{
    if b.left <= b.right {
        (b.right - b.left) as usize + 1
    } else {
        0
    }
}

// The window with its next row block.
fn with_rows(rows: Pointer, w: Window) -> Window
    ensures { result ≡ with_rows rows w }
{
    let block = w.block;
    Window { block, rows }
}
