// What each kind of booking does to a book, record by record, and that it keeps a sound book sound: theorems, no code.
#![tactic(auto)]
