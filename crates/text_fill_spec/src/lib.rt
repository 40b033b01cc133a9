// A text with slots, filled with numbers and rings, as a definition with its laws. No functions.

#![tactic(auto)]
