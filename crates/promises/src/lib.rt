// The three demands as theorems over the definitions of the entry points, and the marked examples as one table. No functions.
#![tactic(auto)]
