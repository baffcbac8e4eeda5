// Document 01's own cases, proved: specs/ and proofs/ alone.
#![tactic(auto)]
