// No code: this crate holds the theorems (proofs/) about the definitions of `words` and `rings`.

#![tactic(auto)]
