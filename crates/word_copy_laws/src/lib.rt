// What the kit's `bytes::copy` and `bytes::reverse` leave, over plain lists. This crate has no functions: its laws are in proofs/Copy.antt.

#![tactic(auto)]
