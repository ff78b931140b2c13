#![tactic(auto)]
// What a refusal 7 of a frame tells is true: specs/Told.antt says what that is, proofs/ shows it of every frame from a start. No code.
