// No code: this crate holds theorems (proofs/) about what the calls of `walk` hand out, through their contracts alone.

#![tactic(auto)]
