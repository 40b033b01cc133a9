// That a record that passed its checks is that of its ring, what a start and a step hand on, and the moves of all steps. No functions.

#![tactic(auto)]
