// No code: this crate holds the theorems (proofs/) about the definitions of `report_spec`.

#![tactic(auto)]
