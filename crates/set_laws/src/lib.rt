// No code: this crate holds the theorems (proofs/) about the definitions of `set_spec`.

#![tactic(auto)]
