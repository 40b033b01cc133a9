// The lines of an input, what they print one after another, and that it is the same however the input was cut into blocks. No functions.

#![tactic(auto)]
