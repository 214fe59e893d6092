// Every call keeps an unbroken store unbroken: proofs only.
#![tactic(auto)]
