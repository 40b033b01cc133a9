// No code: this crate holds the theorem of the strip along the frame, that each reading stands at exactly one place of it (proofs/).

#![tactic(auto)]
