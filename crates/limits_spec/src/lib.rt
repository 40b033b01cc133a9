// What two numbers ask for, with a limit of Too many, and that there is one answer. No functions.

#![tactic(auto)]
