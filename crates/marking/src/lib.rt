#![tactic(auto)]
// Words of memory marked as a walk meets them (document 02, "Segmented memory goes away"): one mark byte for each word.

pub mod marked; // memory with its marks
pub mod row_cells; // the cells of a row, walked
pub mod words; // words, and the words of a block

// Where the words of pointers stand in a block: nowhere, at its front (one or two), or at the front of each five words.
#[derive(Clone, Copy)]
pub enum Shape {
    Plain,
    OnePointer,
    TwoPointers,
    Segments,
}
