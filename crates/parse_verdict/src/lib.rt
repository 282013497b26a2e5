// No code: theorems on the verdict of the parser.
#![tactic(auto)]
