// No code: theorems on the tables of an accepted source.
#![tactic(auto)]
