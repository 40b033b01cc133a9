// The line of four numbers, as a definition. No functions.

#![tactic(auto)]
