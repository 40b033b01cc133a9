// The class of a reading (01, 'Rules the work stands on'), and the bounds. This crate has no functions: its definitions are in specs/,
// and the rings that the client checked by hand are one table in proofs/Cases.antt.

#![tactic(auto)]

// The bounds of n and k (01, 'What the catalogue covers').
pub const MOST_SECTORS: usize = 64;

pub const FEWEST_SHADES: usize = 2;

pub const MOST_SHADES: usize = 16;

#[derive(Clone, Copy, PartialEq, Eq)]
pub enum Class {
    // no prenecklace, with the place of the first sector whose beginning, up to and including it, is none
    Loose(usize),
    // a prenecklace that is no necklace, with its lyn
    Opening(usize),
    // a necklace that is no Lyndon word, with its period
    Repeating(usize),
    // a Lyndon word
    Single,
}
