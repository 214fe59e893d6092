// The first document's machine, kept, and the theorem that it is still there: proofs only.
#![tactic(auto)]
