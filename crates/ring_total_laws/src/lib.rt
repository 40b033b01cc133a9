// No code: this crate holds the theorem that every reading has one ring (specs/ and proofs/), and what it takes to count turns and readings.

#![tactic(auto)]
