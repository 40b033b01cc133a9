// What the command for a sheet reads and prints. No functions.

#![tactic(auto)]
