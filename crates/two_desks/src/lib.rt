#![tactic(auto)]
// Two desks on one memory, whose calls and writes take turns in any way: specs/Desks.antt states what each gets, proofs/ shows it. No code.
