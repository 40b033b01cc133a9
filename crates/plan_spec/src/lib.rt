// What the plan of a line promises, and that there is one answer. No functions.

#![tactic(auto)]
