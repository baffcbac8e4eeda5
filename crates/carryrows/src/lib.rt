// Cases of rights that carry others, proved: specs/ and proofs/ alone.
#![tactic(auto)]
