// What the command for one target reads and prints. No functions.

#![tactic(auto)]
