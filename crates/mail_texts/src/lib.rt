#![tactic(auto)]
// What the reader of a row's text gives of any text: specs/Shared.antt tells it over the texts that the writer writes, proofs/ shows it.
// No code.
