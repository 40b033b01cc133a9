// No code: this crate holds the theorems (proofs/) about the definitions of `how_many_number_spec`.

#![tactic(auto)]
