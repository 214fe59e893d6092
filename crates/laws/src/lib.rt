// Laws of the definitions: proofs only.
#![tactic(auto)]
