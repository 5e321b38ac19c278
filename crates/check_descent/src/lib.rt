// What one pass from the last record down to the first meets: a crate of definitions and proofs.
#![tactic(auto)]
