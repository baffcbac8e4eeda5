#![tactic(auto)]

// The access matrix model and the theorems about it: specs/ and proofs/ alone.
