// Tables with zeros behind their rows: the same program.
#![tactic(auto)]
