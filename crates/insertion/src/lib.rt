#![tactic(auto)]
// Request §13, "Inserting a line, for certain": the statement is specs/Insertion.antt, its proof proofs/Inserted.antt. No code.
