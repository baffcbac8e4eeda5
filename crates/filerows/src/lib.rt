// Cases of files and their refusals, proved: specs/ and proofs/ alone.
#![tactic(auto)]
