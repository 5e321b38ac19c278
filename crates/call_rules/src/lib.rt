// The five calls of document 01.
#![tactic(auto)]
