// No functions: proofs/ shows that every number of the paper fits its word, and meets what the operations on numbers ask.
#![tactic(auto)]
