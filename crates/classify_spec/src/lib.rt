// What classifying answers and promises, and that it has one answer. No functions.

#![tactic(auto)]
