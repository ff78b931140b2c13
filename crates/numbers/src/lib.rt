#![tactic(auto)]
// Settings and states as numbers at fixed places of a slice (include/thagaduvin.h has the table).
pub mod decode; // settings and a state from numbers
pub mod encode; // a state as numbers
