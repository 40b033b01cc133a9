// The words of a list that pass a test, and how many numbers pass one. This crate has no functions: its definitions are in specs/Passing.antt, their laws in proofs/Kept.antt.

#![tactic(auto)]
