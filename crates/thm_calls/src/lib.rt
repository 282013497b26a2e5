// No code: lists of C calls are lists of demand 3.
#![tactic(auto)]
