// The line of two numbers, as a definition with samples. No functions.

#![tactic(auto)]
