// No code: the tests of frame words and scope, said by counts of lets, and that they are the tests of well-formed tables.
#![tactic(auto)]
