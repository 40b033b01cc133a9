// No code: this crate holds sums over divisors, the greatest common divisor, phi and mu (specs/), and values of them that were worked out by hand (proofs/).

#![tactic(auto)]
