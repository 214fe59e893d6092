// The safety of the machine: proofs only.
#![tactic(auto)]
