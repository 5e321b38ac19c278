// What the book holds of each user, by value.
#![tactic(auto)]
