// The third demand, over every list of calls: definitions and theorems, no code.
#![tactic(auto)]
