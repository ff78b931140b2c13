#![tactic(auto)]
// The codes of a segment: each takes its attribute and becomes a character of the row, unless it is ignored or dropped.
use memory::Pointer;

pub mod attribute; // attribute words, and the bits of a cell
pub mod pens; // where drawing stands
pub mod word_by_word; // the codes of a segment, word by word

// The settings that codes are drawn by: linear addresses, Display Hidden, and the attribute flag.
#[derive(Clone, Copy)]
pub struct CodeSettings {
    pub linear: bool,
    pub hidden: bool,
    pub flag: u16,
}

// Where a cell comes from: 0 fill, 1 background, 2 window; and the window's number along the chain, 0 elsewhere. An enum with the number
// in it would be taken apart at each cell.
#[derive(Clone, Copy)]
pub struct Source {
    pub kind: u8,
    pub window: u8,
}

// The room of characters: the source of their cells, and the column that they stand before.
#[derive(Clone, Copy)]
pub struct Room {
    pub source: Source,
    pub end: usize,
}

// The attribute list in use, at its next word; none where it is not present.
#[derive(Clone, Copy)]
pub struct AttributeList {
    pub present: bool,
    pub next: Pointer,
}

// Where drawing stands: the next column, the latch, whether a word of this row became the latch, and the list in use.
#[derive(Clone, Copy)]
pub struct Pen {
    pub column: usize,
    pub latch: u16,
    pub latched: bool,
    pub list: AttributeList,
}

// Where drawing went, with the words read so far.
#[derive(Clone, Copy)]
pub struct Reached {
    pub pen: Pen,
    pub words: u32,
}
