// No code: theorems on the check as a whole.
#![tactic(auto)]
