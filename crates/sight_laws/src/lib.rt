// No code: theorems (proofs/) that join the contracts of `sets` and `sight`: a ring of a guarded set that is seen is told for what it is.

#![tactic(auto)]
