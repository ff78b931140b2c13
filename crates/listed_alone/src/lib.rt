#![tactic(auto)]
// Demand 3 for row calls with a list of the addresses read: specs/DemandListed.antt states it, proofs/ shows it. No code.
