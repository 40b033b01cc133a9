// No code: this crate holds definitions (specs/) and laws (proofs/) about readings as lists.

#![tactic(auto)]
