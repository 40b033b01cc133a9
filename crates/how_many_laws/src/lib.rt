// No code: this crate holds the divisor formulas for the number of rings (specs/), and that they are right (proofs/).

#![tactic(auto)]
