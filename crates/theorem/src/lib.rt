// The third demand over the functions themselves: a crate of definitions and proofs.
#![tactic(auto)]
