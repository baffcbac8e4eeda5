// Cases of rule runs and replays, proved: specs/ and proofs/ alone.
#![tactic(auto)]
