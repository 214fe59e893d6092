// The proved cases P1 to P10: statements only.
#![tactic(auto)]
