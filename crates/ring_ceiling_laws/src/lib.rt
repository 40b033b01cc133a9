// No code: this crate says how far one step can go (specs/) and shows it (proofs/).

#![tactic(auto)]
