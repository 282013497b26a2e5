// No code: theorems on well-formed tables.
#![tactic(auto)]
