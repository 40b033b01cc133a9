// No code: this crate holds the theorems (proofs/) about one ring from each mirror pair, and what they say (specs/).

#![tactic(auto)]
