// No code: this crate holds the theorems of the packed stored form, that packing and unpacking undo each other, for every width (proofs/).

#![tactic(auto)]
