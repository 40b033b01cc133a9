// What a program says of a line of its input that is refused. No functions.

#![tactic(auto)]
