#![tactic(auto)]
// What holds of the questions, the refusals and the result of a row, from what each word read keeps: proofs/ has one law for each part. No code.
