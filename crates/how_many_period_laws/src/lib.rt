// No code: this crate holds the theorems (proofs/) that group necklaces and readings by the Lyndon words that they repeat.

#![tactic(auto)]
