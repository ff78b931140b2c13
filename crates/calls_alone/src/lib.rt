#![tactic(auto)]
// Demand 3 for a console's calls on slices of numbers: specs/DemandCalls.antt states it, proofs/ shows it. No code.
