#![tactic(auto)]
// A console's calls of a soft scroll (libthagaduvin_scroll.a), over slices and with statuses as thagaduvin's. They stand apart from
// libthagaduvin.a so that its rows keep their time: the row beside the cut has the code of a row in it once more.
ghost use Rattle.std.specs.Prelude.{◌≡◌};
ghost use Rattle.answers.specs.AfterCall.{answered, stated};
ghost use Rattle.shifts.specs.AfterShift.{beside_done};
ghost use Rattle.panel.specs.Shown.{layer};
ghost use Rattle.thagaduvin_scroll.specs.PanelCalls.{host_line, host_shown};
ghost use Rattle.thagaduvin_scroll.specs.ScrollCalls.{host_shift, host_beside};

use numbers::decode;
use panel::Columns;
use settings::PointerWords;

// The shift of the next frame, in `scroll`, from the last one there; the hard top, in `answer`. `first` and `second` are the soft top.
#[tactic(auto, unfolding(crate::specs::ScrollCalls::host_shift))]
pub fn thagaduvin_shift(
    settings: &[u32],
    memory: &[u16],
    first: u16,
    second: u16,
    scroll: &mut [u32],
    answer: &mut [u32],
) -> u8
    ensures { stated result scroll.new answer.new ≡ host_shift settings.now memory.now (record { first = first; second = second }) scroll.old answer.old }
{
    let Some(scroll) = scroll.as_mut_array() else {
        return 255;
    };
    let Some(answer) = answer.as_mut_array() else {
        return 255;
    };
    let soft = PointerWords { first, second };
    match decode::settings_in(settings) {
        Some(s) => shifts::next_shift(s, memory, soft, scroll, answer),
        None => 255,
    }
}

// The row beside the cut of a frame with a shift, its cells in `cells`, the addresses of the words read in `list`; nothing of it goes on into the frame.
#[tactic(auto, unfolding(crate::specs::ScrollCalls::host_beside))]
pub fn thagaduvin_beside(
    settings: &[u32],
    memory: &[u16],
    shift: i32,
    first: u16,
    second: u16,
    latch: u16,
    state: &[u32],
    cells: &mut [u32],
    list: &mut [u32],
    answer: &mut [u32],
) -> u8
    ensures { beside_done result cells.new list.new answer.new ≡ host_beside settings.now memory.now shift (record { first = first; second = second }) latch state.now cells.old list.old answer.old }
{
    let Some(answer) = answer.as_mut_array() else {
        return 255;
    };
    let soft = PointerWords { first, second };
    match decode::settings_in(settings) {
        Some(s) => {
            shifts::beside_from(s, memory, shift, soft, latch, state, cells, list, answer)
        }
        None => 255,
    }
}

// What line y of the screen shows of a frame with a shift, seven numbers in `answer`: what glides there, what stands still, and how many
// lines from it on have these two. `heights` are those of the frame's rows, `rows` of them, and then of the rows below.
#[tactic(auto, unfolding(crate::specs::PanelCalls::host_line))]
pub fn thagaduvin_line(
    shift: i32,
    above: u32,
    heights: &[u32],
    rows: usize,
    y: u32,
    answer: &mut [u32],
) -> u8
    ensures { answered result answer.new ≡ host_line shift above heights.now rows y answer.old }
{
    let Some(answer) = answer.as_mut_array() else {
        return 255;
    };
    if !line_numbers::is_asked(shift, above, heights, rows) {
        return 255;
    }
    let l = panel::line_of(shift, above, heights, rows, y);
    line_numbers::write_line(l, answer);
    0
}

// The cells of such a line, in `cells`, from the row that stands still and the row that glides, each with the columns of the window on
// it, and what is behind the latter's window.
#[tactic(auto, unfolding(crate::specs::PanelCalls::host_shown))]
pub fn thagaduvin_shown(
    still: &[u32],
    still_first: u32,
    still_last: u32,
    background: &[u32],
    background_first: u32,
    background_last: u32,
    behind: &[u32],
    cells: &mut [u32],
) -> u8
    ensures { answered result cells.new ≡ host_shown (layer still.now (record { first = still_first; last = still_last })) (layer background.now (record { first = background_first; last = background_last })) behind.now cells.old }
{
    let s = Columns {
        first: still_first,
        last: still_last,
    };
    let b = Columns {
        first: background_first,
        last: background_last,
    };
    if panel::show(still, s, background, b, behind, cells) {
        return 0;
    }
    1
}
