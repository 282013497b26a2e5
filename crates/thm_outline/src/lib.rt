// No code: theorems on the rows and labels of an accepted outline.
#![tactic(auto)]
