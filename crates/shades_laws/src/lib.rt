// No code: this crate holds laws (proofs/) about the pool of words that decides whether a beginning can be completed to a necklace of given counts.

#![tactic(auto)]
