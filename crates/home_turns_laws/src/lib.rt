// No code: theorems (proofs/) about the turns of `home_spec`: which comes nearest, and readings that none of their own turns comes near.

#![tactic(auto)]
