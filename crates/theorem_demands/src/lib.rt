#![tactic(auto)]
// The user's three demands, of the calls that a console runs: specs/Demands.antt states them, proofs/ shows them. No code.
