#![tactic(auto)]
// What a frame depends on, and two desks on one memory: specs/ states it, proofs/ shows it. No code.
