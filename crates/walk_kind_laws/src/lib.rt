// The three kinds of step, and what a prenecklace is by its lyn. This crate has no functions: its definitions, which serve the code alone, are in specs/, their laws in proofs/.

#![tactic(auto)]

// The three kinds of step.
#[derive(Clone, Copy)]
pub enum Kind {
    Prenecklace,
    Necklace,
    Lyndon,
}
