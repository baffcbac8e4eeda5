// Cases of judgements, needs, parts and sheets, proved: specs/ and proofs/ alone.
#![tactic(auto)]
