#![tactic(auto)]
// Document 01's marked examples, computed from the definitions: specs/Marked.antt. No code.
