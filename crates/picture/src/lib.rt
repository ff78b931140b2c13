#![tactic(auto)]
// The picture of a shifted frame: definitions and what is proved of them. It has no code.
