#![tactic(auto)]
// The statuses of a console's calls: specs/Statuses.antt says which each can have, proofs/ shows it. No code.
