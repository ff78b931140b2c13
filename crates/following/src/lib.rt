#![tactic(auto)]
// A frame followed from its start latch, each word marked as it is met and nothing changed (document 02, "Segmented memory goes away").
// The words of a block are marked first, then its reader decodes it: where marking passes, the walk gives what the reader gives.

pub mod lists; // the words of blocks and windows, marked
pub mod rows; // the start and the rows of a frame
