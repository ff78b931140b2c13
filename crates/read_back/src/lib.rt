#![tactic(auto)]
// What a console's calls wrote is read back as it was: specs/ReadBack.antt says of which states and effects, proofs/ shows it. No code.
