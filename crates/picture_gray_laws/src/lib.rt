// A drawn shade is read back as itself. No functions.

#![tactic(auto)]
