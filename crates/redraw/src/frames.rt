// The frames in memory. Frame 0 has two windows, and a chain of five rows that goes round until the lines run out. Frames 1 to 3
// end in a row that is refused: by a fill word without bit 15, and only when ignore comes in set; by a missing word; by its
// widths. Frame 4 goes round the chain of frame 0, from another row and from a latch with ignore set.
use settings::{Edition, Interlace, PointerWords, Settings};

// The words of memory, sixteen bytes a line from address 0 on; those after them are 0, and so are the 132 codes at 0210.
const LINES: [[u16; 8]; 33] = [
    [0, 0, 0, 0, 0, 0, 0, 0],
    // Main blocks of frames 0 to 4: first row block, cursor 3 on row 2, full stops to fill with and the fill flag, four lines a row.
    [0, 0x0060, 0x0302, 0x012E, 0, 0, 3, 0],
    [0, 0x0140, 0x0302, 0x012E, 0, 0, 3, 0],
    [0, 0x0160, 0x0302, 0x012E, 0, 0, 3, 0],
    [0, 0x0180, 0x0302, 0x012E, 0, 0, 3, 0],
    [0, 0x00D0, 0x0302, 0x012E, 0, 0, 3, 0],
    // Rows of frame 0, from 0060: text with latched and ignored characters, and a last fill word that sets ignore;
    [0, 0x0080, 1, 0, 0x01B0, 0, 0x01E0, 0x0404],
    [0, 0, 0, 0, 0, 0, 0, 0],
    // 0080: three segments, whose second ends ignore unless a window covers it;
    [0, 0x00B0, 3, 0, 0x01B4, 0, 0, 0x0202],
    [0, 0x01B8, 0, 0x01E8, 0x0404, 0, 0x01C0, 0],
    [0, 0x0606, 0, 0, 0, 0, 0, 0],
    // 00B0: a redefinition, and a segment that is all fill;
    [0, 0x00D0, 0x8001, 0, 0x01FC, 0, 0, 0],
    [0x01EC, 2, 0, 0, 0, 0, 0, 0],
    // 00D0: a full row, whose fill word is taken only when ignore comes in set;
    [0, 0x00E0, 1, 0, 0x0210, 0, 0x01F0, 0x8484],
    // 00E0: dropped characters, of which one sets ignore.
    [0, 0x0060, 2, 0, 0x01C8, 0, 0x01F2, 0x0401],
    [0, 0x01CC, 0, 0, 0x0303, 0, 0, 0],
    // Window blocks, rows 1 and 2 and then 5 and 6.
    [0, 0x0110, 0, 0x0120, 0x0102, 0x0205, 0, 0],
    [0, 0, 0, 0x0130, 0x0506, 0x060B, 0, 0],
    // Window rows: one with a latch and a fill word, and one that comes again.
    [0, 0, 1, 0, 0x01D0, 0, 0x01F6, 0x0202],
    [0, 0x0130, 1, 0, 0x01D4, 0, 0, 0x0403],
    // Rows of frame 1: a full row with a fill word without bit 15, and a row that sets ignore, in turn.
    [0, 0x0150, 1, 0, 0x0210, 0, 0x0202, 0x8484],
    [0, 0x0140, 1, 0, 0x01B0, 0, 0x01E0, 0x0404],
    // Rows of frame 2: one that sets ignore, and one with codes past memory.
    [0, 0x0170, 1, 0, 0x01B0, 0, 0x01E0, 0x0404],
    [0, 0, 1, 0, 0x029E, 0, 0, 0x0404],
    // Rows of frame 3: one that sets ignore, and one with widths 100 and 33.
    [0, 0x0190, 1, 0, 0x01B0, 0, 0x01E0, 0x0404],
    [0, 0, 2, 0, 0, 0, 0, 0x0064],
    [0, 0, 0, 0, 0x0021, 0, 0, 0],
    // Codes, from 01B0.
    [0x4849, 0x8182, 0x4142, 0, 0x8384, 0x7879, 0, 0],
    [0x5445, 0x5854, 0x2121, 0, 0x4185, 0x4286, 0x656E, 0x6400],
    [0x7787, 0, 0x7777, 0x7777, 0, 0, 0, 0],
    // Attribute lists, from 01E0, and the redefinition at 01FC.
    [
        0x8003, 0x2000, 0x8104, 0xA006, 0x8001, 0x4002, 0x9005, 0x8040,
    ],
    [0x8004, 0xA00C, 3, 0x8007, 0x8208, 0x8209, 0x02A5, 5],
    [0x0308, 4, 0, 0, 0, 0, 0, 0],
];

pub(crate) fn words() -> [u16; 336] {
    let mut mem = [0u16; 336];
    mem[..264].copy_from_slice(LINES.as_flattened());
    mem
}

pub(crate) fn settings(n: u16) -> Settings {
    let interlace = Interlace::Progressive;
    let edition = Edition::Am8052;
    let top = PointerWords {
        first: 0,
        second: main_block(n),
    };
    let tow = PointerWords {
        first: 0,
        second: first_window(n),
    };
    Settings {
        linear: true,
        hidden: false,
        interlace,
        cursor: true,
        flag: 0x8080,
        top,
        tow,
        vsw: 0,
        vsd: 9,
        val: 45,
        vtot: 70,
        hsync: 7,
        hsd: 9,
        htc: 150,
        htd: 141,
        edition,
    }
}

fn main_block(n: u16) -> u16 {
    match n {
        0 => 0x0010,
        1 => 0x0020,
        2 => 0x0030,
        3 => 0x0040,
        _ => 0x0050,
    }
}

// The window block that a frame begins with: only frame 0 has one.
fn first_window(n: u16) -> u16 {
    if n == 0 { 0x0100 } else { 0 }
}

// The latch that a frame is started with.
pub(crate) fn latch(n: u16) -> u16 {
    if n < 4 { 0 } else { 0xA001 }
}
