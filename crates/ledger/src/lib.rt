// The ledger of document 01 and what its accounts come to: definitions and theorems, no code.
#![tactic(auto)]
