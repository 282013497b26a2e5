// No code: theorems on whole programs.
#![tactic(auto)]
