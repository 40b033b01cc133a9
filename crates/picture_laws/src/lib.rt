// What the picture of a target shows. No functions.

#![tactic(auto)]
