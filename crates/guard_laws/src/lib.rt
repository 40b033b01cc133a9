// No code: this crate holds the theorems (proofs/) about the definitions of `guard_spec`.

#![tactic(auto)]
