// No code: this crate says what the strip along the frame is (specs/), with strips worked out by hand and the laws of the definition (proofs/).

#![tactic(auto)]
