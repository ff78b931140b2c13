#![tactic(auto)]
// The blocks in memory: main, row, redefinition and window row.
ghost use Rattle.std.specs.Prelude.{◌≡◌, ◌&&◌, ◌+◌, ◌≤◌, ◌%◌, length};
ghost use Rattle.memory.specs.Word.{bit};
ghost use Rattle.memory.specs.Reading.{run, run_from};
ghost use Rattle.blocks.specs.Main.{main_block, main_block_at};
ghost use Rattle.blocks.specs.RowBlock.{segments_from, block_at, row_block_at, window_row_at, format_of, redefined};
ghost use Rattle.blocks.specs.Answers.{main_read, block_read, format_read, segment_in, pointer_words, pointer_read, redefinition_pointer};

use memory::{Fault, Pointer};

// The absolute cursor's place.
#[derive(Clone, Copy, PartialEq, Eq)]
pub struct Cursor {
    pub x: u8,
    pub y: u8,
}

// The code of fill cells, and whether a fill run takes an attribute word first.
#[derive(Clone, Copy, PartialEq, Eq)]
pub struct FillMode {
    pub code: u8,
    pub flag: bool,
}

// The main block: the first row block, the cursor, the fill, M4, and the scan lines per row.
#[derive(Clone, Copy)]
pub struct MainBlock {
    pub rows: Pointer,
    pub cursor: Cursor,
    pub fill: FillMode,
    pub m4: u16,
    pub lines: u8,
}

// A segment of a row: code pointer, attribute pointer, length L and visible V.
#[derive(Clone, Copy)]
pub struct Segment {
    pub codes: Pointer,
    pub attributes: Pointer,
    pub length: u8,
    pub visible: u8,
}

// What a redefinition sets: scan lines, row attributes, CURS and CURE.
#[derive(Clone, Copy, PartialEq, Eq)]
pub struct RowFormat {
    pub lines: u8,
    pub attributes: u16,
    pub curs: u8,
    pub cure: u8,
}

// How many segments a block has, and the address of the first.
#[derive(Clone, Copy)]
pub struct SegmentCount {
    pub number: u8,
    pub at: u32,
}

// A row block but for its segments: the words read, count of segments, link and redefinition pointer. The pointers stand last, clear of
// the parts of a refusal, so that each is written and read in one piece.
#[derive(Clone, Copy)]
pub struct BlockHead {
    pub words: u32,
    pub count: SegmentCount,
    pub link: Pointer,
    pub redefinition: Pointer,
}

// The format of a row with the words read for it, or a refusal.
#[derive(Clone, Copy)]
pub struct FormatRead {
    pub format: RowFormat,
    pub words: u32,
}

// The main block that a pointer leads to: 7 words.
pub fn main_block(mem: &[u16], linear: bool, p: Pointer) -> Result<MainBlock, Fault>
    ensures { main_read result ≡ run mem.now (main_block_at linear p) }
{
    let mut b = [0u16; 7];
    memory::read_words(mem, linear, p, &mut b)?;
    Ok(main_block_of(linear, p.address, &b))
}

// What the redefinition that a pointer leads to makes of a format; nothing where the pointer is null.
pub fn redefinition(
    mem: &[u16],
    linear: bool,
    p: Pointer,
    format: RowFormat,
) -> Result<FormatRead, Fault>
    ensures { format_read result ≡ run mem.now (redefined linear p format) }
{
    if p.address == 0 {
        return Ok(FormatRead { format, words: 0 });
    }
    let mut b = [0u16; 3];
    memory::read_words(mem, linear, p, &mut b)?;
    Ok(FormatRead {
        format: format_of(&b),
        words: 3,
    })
}

// The row block that a pointer leads to, with the words of its segments in `segments`.
pub fn row_block(
    mem: &[u16],
    linear: bool,
    p: Pointer,
    segments: &mut [u16; 75],
) -> Result<BlockHead, Fault>
    ensures { block_read linear result segments.new ≡ run mem.now (row_block_at linear p) }
{
    block_at(mem, linear, true, p, segments)
}

// The window row block that a pointer leads to, with the words of its segments in `segments`.
pub fn window_row_block(
    mem: &[u16],
    linear: bool,
    p: Pointer,
    segments: &mut [u16; 75],
) -> Result<BlockHead, Fault>
    ensures { block_read linear result segments.new ≡ run mem.now (window_row_at linear p) }
{
    block_at(mem, linear, false, p, segments)
}

// Segment `i` of the words of 15; one of zeros past them.
pub fn segment_at(linear: bool, count: SegmentCount, words: &[u16; 75], i: usize) -> Segment
    ensures { result ≡ segment_in linear count words.now i }
{
    segment_in(linear, count, words, i)
}

// The main block at an address, from its words.
fn main_block_of(linear: bool, at: u32, b: &[u16; 7]) -> MainBlock
    ensures { result ≡ main_block linear at b.now }
{
    let cursor = Cursor {
        x: memory::high_byte(b[2]),
        y: memory::low_byte(b[2]),
    };
    let fill = FillMode {
        code: memory::low_byte(b[3]),
        flag: b[3] / 256 % 2 == 1,
    };
    MainBlock {
        rows: memory::pointer_of(linear, at, b[0], b[1]),
        cursor,
        fill,
        m4: b[4],
        lines: (b[6] % 32 + 1) as u8,
    }
}

fn format_of(b: &[u16; 3]) -> RowFormat
    ensures { result ≡ format_of b.now }
{
    RowFormat {
        lines: (b[1] % 32 + 1) as u8,
        attributes: b[0] % 1024,
        curs: (b[2] / 256 % 32) as u8,
        cure: (b[2] % 32) as u8,
    }
}

// A row block, or a window row block where no redefinition pointer is looked for.
fn block_at(
    mem: &[u16],
    linear: bool,
    redefines: bool,
    p: Pointer,
    segments: &mut [u16],
) -> Result<BlockHead, Fault>
    requires { length segments.old ≡ 75 }
    ensures { block_read linear result segments.new ≡ run mem.now (block_at linear redefines p) }
{
    if p.address == 0 {
        let count = SegmentCount { number: 0, at: 0 };
        return Ok(BlockHead {
            link: Pointer::NULL,
            redefinition: Pointer::NULL,
            count,
            words: 0,
        });
    }
    let mut head = [0u16; 3];
    memory::read_words(mem, linear, p, &mut head)?;
    let pointed = is_pointed(redefines, head[2]);
    let redefinition = redefinition_pointer(mem, linear, pointed, p)?;
    let words = words_before(pointed);
    segments_from(mem, linear, p, &head, redefinition, words, segments)
}

// Does a redefinition pointer follow a block's third word?
fn is_pointed(redefines: bool, w: u16) -> bool
    ensures { result ≡ redefines && bit 15 w }
{
    redefines & memory::bit_15(w)
}

// How many words of a block stand before its segments.
fn words_before(pointed: bool) -> u32
    ensures { result ≡ 3 + pointer_words pointed }
{
    if pointed { 5 } else { 3 }
}

// The redefinition pointer of the block at `p`, of which three words have been read; null where it has none.
fn redefinition_pointer(
    mem: &[u16],
    linear: bool,
    pointed: bool,
    p: Pointer,
) -> Result<Pointer, Fault>
    ensures { pointer_read (pointer_words pointed) result ≡ run_from 3 mem.now (redefinition_pointer linear p (pointer_words pointed)) }
{
    if pointed {
        let mut re = [0u16; 2];
        let at = memory::further(linear, 3, p);
        memory::read_words(mem, linear, at, &mut re)?;
        Ok(memory::pointer_of(linear, at.address, re[0], re[1]))
    } else {
        Ok(Pointer::NULL)
    }
}

// The rest of the block at `p`, of which `words` words have been read: its segments.
fn segments_from(
    mem: &[u16],
    linear: bool,
    p: Pointer,
    head: &[u16; 3],
    redefinition: Pointer,
    words: u32,
    segments: &mut [u16],
) -> Result<BlockHead, Fault>
    requires { (length segments.old ≡ 75) × (words ≤ 5) }
    ensures { block_read linear result segments.new ≡ run_from words mem.now (segments_from linear p head.now redefinition words) }
{
    let number = segment_count(head[2]);
    let n = 5 * number as usize;
    let first = memory::further(linear, words, p);
    memory::read_many(mem, linear, first, &mut segments[..n])?;
    let count = SegmentCount {
        number,
        at: first.address,
    };
    Ok(BlockHead {
        link: memory::pointer_of(linear, p.address, head[0], head[1]),
        redefinition,
        count,
        words: words + 5 * number as u32,
    })
}

// As `segment_at`, of a slice of 75 words.
fn segment_in(linear: bool, count: SegmentCount, words: &[u16], i: usize) -> Segment
    requires { length words.now ≡ 75 }
    ensures { result ≡ segment_in linear count words.now i }
{
    if i < 15 {
        let k = 5 * i;
        let at = memory::words_ahead(linear, k as u32, count.at);
        let list_at = memory::words_ahead(linear, 2, at);
        Segment {
            codes: memory::pointer_of(linear, at, words[k], words[k + 1]),
            attributes: memory::pointer_of(linear, list_at, words[k + 2], words[k + 3]),
            length: memory::high_byte(words[k + 4]),
            visible: memory::low_byte(words[k + 4]),
        }
    } else {
        Segment {
            codes: Pointer::NULL,
            attributes: Pointer::NULL,
            length: 0,
            visible: 0,
        }
    }
}

// The count of segments, from a block's third word.
fn segment_count(w: u16) -> u8
    ensures { result ≡ w % 16 }
{
    (w % 16) as u8
}
