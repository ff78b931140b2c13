#![tactic(auto)]
// The numbers of refusal that each call can answer with: specs/Refusals.antt lists them, proofs/ shows the lists right and without a
// number too many. No code.
