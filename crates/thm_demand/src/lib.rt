// No code: demand 3 for accepted sources.
#![tactic(auto)]
