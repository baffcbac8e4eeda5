// The table of cases, proved: specs/ and proofs/ alone.
#![tactic(auto)]
