// The third demand, the archive's round trips, the raised readings, the reading back of the operator's text and the least addition
// over the exported functions: a crate of definitions and proofs.
#![tactic(auto)]
