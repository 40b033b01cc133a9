// No code: this crate says what the calls that count promise (specs/), and that they have one answer (proofs/).

#![tactic(auto)]
