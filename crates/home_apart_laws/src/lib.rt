// No code: this crate holds theorems (proofs/) about what `home::apart` and `home::same_ring` answer (02, request d), through their contracts alone.

#![tactic(auto)]
