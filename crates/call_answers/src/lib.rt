// What every call answers and leaves: a crate of definitions and proofs.
#![tactic(auto)]
