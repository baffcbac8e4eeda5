#![tactic(auto)]

// Definitions by cases and by repetition, with their laws: specs/ and proofs/ alone.
