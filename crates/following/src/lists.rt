// The words of blocks and windows, marked in their roles.
ghost use Rattle.std.specs.Prelude.{◌≡◌, true, ◌&&◌, List, ℕ, ◌%◌, ◌≤◌, leb};
ghost use Rattle.memory.specs.Word.{when◌then◌else◌, bit, at};
ghost use Rattle.blocks.specs.declared.RowFormat.{RowFormat};
ghost use Rattle.blocks.specs.RowBlock.{rest_of_block, block_at, redefined};
ghost use Rattle.windows.specs.Window.{window_at, due_window};
ghost use Rattle.layout.specs.Overlay.{overlaid};
ghost use Rattle.background.specs.Background.{background_row};
ghost use Rattle.state.specs.State.{in_range};
ghost use Rattle.plan.specs.Plan.{from_blocks, from_state};
ghost use Rattle.start.specs.Top.{registered, top_block};
ghost use Rattle.marking.specs.Answers.{Trails};
ghost use Rattle.following.specs.Answers.{from_background};

use marking::marked::Marked;
use marking::{Shape, words};
use memory::{Fault, Pointer};
use settings::{PointerWords, Settings};
use state::Fields;
use windows::{Window, WindowBlock};

// The words of a main block that a top register leads to; none where the register is null.
pub fn mark_top(marked: &mut Marked, linear: bool, top: PointerWords) -> Result<(), Fault>
    ensures { Trails result marked.old marked.new (registered linear top).address (top_block linear top) }
{
    let p = memory::pointer_of(linear, 0, top.first, top.second);
    if p.address == 0 {
        return Ok(());
    }
    marked.mark_words(linear, p.address, p, Shape::OnePointer, 7)
}

// The words of a window block; none where the pointer is null. `held` is the address that the register in use holds.
pub fn mark_window(marked: &mut Marked, linear: bool, held: u32, p: Pointer) -> Result<(), Fault>
    ensures { (number least : ℕ) → Trails result marked.old marked.new held (window_at linear number least p) }
{
    if p.address == 0 {
        return Ok(());
    }
    marked.mark_words(linear, held, p, Shape::TwoPointers, 6)
}

// The words that a row's plan reads: none where the state is out of range or no line is left.
pub fn mark_state(marked: &mut Marked, settings: Settings, fields: Fields) -> Result<(), Fault>
    ensures { Trails result marked.old marked.new 0 (from_state settings fields) }
{
    if !state::in_range(fields) {
        return Ok(());
    }
    if fields.left == 0 {
        return Ok(());
    }
    mark_blocks(marked, settings, fields)
}

// The words of a due window, then those of the row's blocks.
fn mark_blocks(marked: &mut Marked, settings: Settings, fields: Fields) -> Result<(), Fault>
    requires { in_range fields ≡ true }
    ensures { Trails result marked.old marked.new 0 (from_blocks settings fields) }
{
    mark_due(marked, settings.linear, fields.row, fields.window)?;
    let Ok(due) = windows::due_window(marked.mem, settings.linear, fields.row, fields.window) else {
        return Ok(());
    };
    mark_background(marked, settings, fields, due.window)
}

// The words of the next window block, where it is due.
fn mark_due(
    marked: &mut Marked,
    linear: bool,
    row: u32,
    in_hand: Option<Window>,
) -> Result<(), Fault>
    ensures { Trails result marked.old marked.new 0 (due_window linear row in_hand) }
{
    match in_hand {
        Some(w) if (w.block.bottom as u32) < row => mark_window(marked, linear, 0, w.block.link),
        _ => Ok(()),
    }
}

// The words of the row block and its redefinition, then, once checks 9 and 10 are met, those of the window on the row.
fn mark_background(
    marked: &mut Marked,
    settings: Settings,
    fields: Fields,
    window: Option<Window>,
) -> Result<(), Fault>
    ensures { Trails result marked.old marked.new 0 (from_background settings fields «window») }
{
    mark_row(marked, settings, fields)?;
    let mut back = [0u16; 75];
    let Ok(_) = background::background_row(marked.mem, settings, fields, &mut back) else {
        return Ok(());
    };
    mark_overlay(marked, settings, fields.row, window)
}

// The words of the row block, then those of its redefinition.
fn mark_row(marked: &mut Marked, settings: Settings, fields: Fields) -> Result<(), Fault>
    ensures { Trails result marked.old marked.new 0 (background_row settings fields) }
{
    mark_block(marked, settings.linear, true, fields.next)?;
    let mut back = [0u16; 75];
    let Ok(block) = blocks::row_block(marked.mem, settings.linear, fields.next, &mut back) else {
        return Ok(());
    };
    mark_redefinition(marked, settings.linear, block.redefinition)
}

// The words of a redefinition; none where the pointer is null.
fn mark_redefinition(marked: &mut Marked, linear: bool, p: Pointer) -> Result<(), Fault>
    ensures { (format : RowFormat) → Trails result marked.old marked.new 0 (redefined linear p format) }
{
    if p.address == 0 {
        return Ok(());
    }
    marked.mark_words(linear, 0, p, Shape::Plain, 3)
}

// The words of the window's row block, on its rows.
fn mark_overlay(
    marked: &mut Marked,
    settings: Settings,
    row: u32,
    in_hand: Option<Window>,
) -> Result<(), Fault>
    ensures { Trails result marked.old marked.new 0 (overlaid settings row in_hand) }
{
    match in_hand {
        Some(w) if is_on_row(w.block, row) => mark_block(marked, settings.linear, false, w.rows),
        _ => Ok(()),
    }
}

// Is the row one of the window's?
fn is_on_row(b: WindowBlock, row: u32) -> bool
    ensures { result ≡ leb b.top row && leb row b.bottom }
{
    (b.top as u32 <= row) & (row <= b.bottom as u32)
}

// The words of a row block, or of a window row block where no redefinition pointer is looked for; none where the pointer is null.
fn mark_block(marked: &mut Marked, linear: bool, redefines: bool, p: Pointer) -> Result<(), Fault>
    ensures { Trails result marked.old marked.new 0 (block_at linear redefines p) }
{
    if p.address == 0 {
        return Ok(());
    }
    marked.mark_words(linear, 0, p, Shape::OnePointer, 3)?;
    let w = words::word_in(marked.mem, memory::words_ahead(linear, 2, p.address));
    mark_rest(marked, linear, p, pointed(redefines, w), (w % 16) as u32)
}

// The words of a redefinition pointer that follow a block's third word: 2 or 0.
fn pointed(redefines: bool, w: u16) -> u32
    ensures { (result ≡ (when redefines && bit 15 w then 2 else 0)) × (result ≤ 2) }
{
    if redefines & memory::bit_15(w) { 2 } else { 0 }
}

// The rest of a block: the redefinition pointer, then the segments.
fn mark_rest(
    marked: &mut Marked,
    linear: bool,
    p: Pointer,
    pointed: u32,
    number: u32,
) -> Result<(), Fault>
    requires { (pointed ≤ 2) × (number ≤ 15) }
    ensures { (head : List ℕ) → at head 2 % 16 ≡ number → Trails result marked.old marked.new 0 (rest_of_block linear p head pointed) }
{
    let re = memory::further(linear, 3, p);
    marked.mark_words(linear, 0, re, Shape::OnePointer, pointed)?;
    let first = memory::further(linear, 3 + pointed, p);
    marked.mark_words(linear, 0, first, Shape::Segments, 5 * number)
}
