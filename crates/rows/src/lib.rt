// A row of the table of cases: specs/ and proofs/ alone.
#![tactic(auto)]
