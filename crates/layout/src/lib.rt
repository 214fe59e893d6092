// Laws of the tables: reading what was written, writing what was read, and what 'broken' means. Proofs alone: no code.
#![tactic(auto)]
