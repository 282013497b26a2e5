// Names as bytes: theorems alone.
#![tactic(auto)]
