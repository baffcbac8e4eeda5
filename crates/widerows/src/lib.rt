// Cases of twelve rights, proved: specs/ and proofs/ alone.
#![tactic(auto)]
