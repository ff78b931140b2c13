#![tactic(auto)]
// The background of a row: its block, its redefinition, and checks 9 and 10 on its segments.
ghost use Rattle.std.specs.Prelude.{◌≡◌};
ghost use Rattle.memory.specs.Reading.{run};
ghost use Rattle.background.specs.Background.{background_block, background_row};
ghost use Rattle.background.specs.Answers.{background_read};

use blocks::{BlockHead, FormatRead, RowFormat};
use memory::{Fault, Pointer};
use settings::Settings;
use state::Fields;

// A row's block, its words with those of its redefinition, and the format that this makes; or a refusal.
#[derive(Clone, Copy)]
pub struct BackgroundRead {
    pub block: BlockHead,
    pub format: RowFormat,
}

// The whole row block that a pointer leads to, with the words of its segments in `back`, then its redefinition of a format.
pub fn background_block(
    mem: &[u16],
    linear: bool,
    p: Pointer,
    format: RowFormat,
    back: &mut [u16; 75],
) -> Result<BackgroundRead, Fault>
    ensures { background_read linear result back.new ≡ run mem.now (background_block linear p format) }
{
    let b = blocks::row_block(mem, linear, p, back)?;
    let redefinition = b.redefinition;
    let read = blocks::redefinition(mem, linear, redefinition, format);
    // no `?`, so that a wrong program can turn the refusal in its arm
    let FormatRead { format, words } = match read {
        Ok(read) => read,
        Err(fault) => return Err(fault),
    };
    let link = b.link;
    let count = b.count;
    let block = BlockHead {
        link,
        redefinition,
        count,
        words: b.words + words,
    };
    Ok(BackgroundRead { block, format })
}

// The whole row block, then its redefinition; then checks 9 and 10 on its segments.
pub fn background_row(
    mem: &[u16],
    settings: Settings,
    fields: Fields,
    back: &mut [u16; 75],
) -> Result<BackgroundRead, Fault>
    ensures { background_read settings.linear result back.new ≡ run mem.now (background_row settings fields) }
{
    // field by field, as in `state::in_range`
    let next = Pointer {
        address: fields.next.address,
        from: fields.next.from,
    };
    let format = fields.format;
    let BackgroundRead { block, format } = background_block(
        mem,
        settings.linear,
        next,
        format,
        back,
    )?;
    let count = block.count;
    let m = layout::measure_segments(settings.linear, settings.hidden, back, count);
    if !m.fit {
        return Err(memory::blame(9, next));
    }
    if 132 < m.width {
        return Err(memory::blame(10, next));
    }
    Ok(BackgroundRead { block, format })
}
