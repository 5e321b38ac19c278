// Chains of records and their sums: definitions and laws (document 01, "Book", "Election and advances").
#![tactic(auto)]
