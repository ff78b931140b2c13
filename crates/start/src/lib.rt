#![tactic(auto)]
// The start of a frame: its first state.
ghost use Rattle.std.specs.Prelude.{◌≡◌, ◌&&◌};
ghost use Rattle.memory.specs.Word.{bit};
ghost use Rattle.memory.specs.Reading.{run, run_from};
ghost use Rattle.blocks.specs.Answers.{main_read};
ghost use Rattle.start.specs.Top.{top_block};
ghost use Rattle.start.specs.Start.{first_format, first_fields, window_start, main_start, start_from, started, start_call};
ghost use Rattle.start.specs.Answers.{start_read};

use blocks::{MainBlock, RowFormat};
use memory::{Fault, Refusal};
use settings::{PointerWords, Settings};
use state::{Fields, State};
use windows::{Window, WindowRead};

// The answer of an accepted start: the words read, and the first state.
#[derive(Clone, Copy)]
pub struct Started {
    pub words: u32,
    pub state: State,
}

// The start of a frame from a latch: its first state and the words read, or refusal 2, 17, 6, 7, 14 or 8.
pub fn start(settings: Settings, mem: &[u16], latch: u16) -> Result<Started, Refusal>
    ensures { result ≡ start_call latch settings mem.now }
{
    memory::told_in(0, read_start(settings, mem, latch))
}

// The main block that a top register leads to, or refusal 6, 7 or 14.
pub fn top_block(mem: &[u16], linear: bool, top: PointerWords) -> Result<MainBlock, Fault>
    ensures { main_read result ≡ run mem.now (top_block linear top) }
{
    let p = memory::pointer_of(linear, 0, top.first, top.second);
    if p.address == 0 {
        return Err(memory::fault_of(6));
    }
    let main = blocks::main_block(mem, linear, p)?;
    if scrolls_window(main.m4) {
        Err(memory::fault_of(14))
    } else {
        Ok(main)
    }
}

// The format that a frame starts with, from its main block's scan lines.
pub fn first_format(lines: u8) -> RowFormat
    ensures { result ≡ first_format lines }
{
    RowFormat {
        lines,
        attributes: 0,
        curs: 0,
        cure: 31,
    }
}

// Does M4 enable the soft scroll of a window? There is none.
fn scrolls_window(m4: u16) -> bool
    ensures { result ≡ bit 14 m4 && bit 12 m4 }
{
    (m4 / 16384 % 2 == 1) & (m4 / 4096 % 2 == 1)
}

// The rest of a start, once its settings are checked: the main block.
pub fn start_main(settings: Settings, mem: &[u16], latch: u16) -> Result<Started, Refusal>
    ensures { result ≡ started (run mem.now (main_start latch settings)) }
{
    memory::told_in(0, read_main(settings, mem, latch))
}

// The checks on settings, then the main block.
fn read_start(settings: Settings, mem: &[u16], latch: u16) -> Result<Started, Fault>
    ensures { start_read result ≡ run mem.now (start_from latch settings) }
{
    settings::check_settings(settings)?;
    read_main(settings, mem, latch)
}

// The main block that TOP leads to, then the first window.
fn read_main(settings: Settings, mem: &[u16], latch: u16) -> Result<Started, Fault>
    ensures { start_read result ≡ run mem.now (main_start latch settings) }
{
    let top = settings.top;
    let main = top_block(mem, settings.linear, top)?;
    read_window(settings, mem, latch, main)
}

// The first window, that TOW leads to; the first state.
fn read_window(
    settings: Settings,
    mem: &[u16],
    latch: u16,
    main: MainBlock,
) -> Result<Started, Fault>
    ensures { start_read result ≡ run_from 7 mem.now (window_start latch settings main) }
{
    let tow = memory::pointer_of(settings.linear, 0, settings.tow.first, settings.tow.second);
    let WindowRead { window, words } = windows::first_window(mem, settings.linear, tow)?;
    let fields = first_fields(settings, main, window);
    let state = State { latch, fields };
    Ok(Started {
        words: 7 + words,
        state,
    })
}

fn first_fields(settings: Settings, main: MainBlock, window: Option<Window>) -> Fields
    ensures { result ≡ first_fields settings main window }
{
    let cursor = main.cursor;
    let fill = main.fill;
    let format = first_format(main.lines);
    let next = main.rows;
    Fields {
        row: 0,
        left: settings::lines_for_rows(settings),
        cursor,
        fill,
        format,
        next,
        window,
    }
}
