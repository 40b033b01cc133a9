// Guarded target sets, as definitions: no ring of such a set is taken for another, nor for one seen from behind, nor for itself turned. No function: crate `sets` picks
// them, `sight` tells which is seen.

#![tactic(auto)]

// By which rule a set is chosen: by distance alone, or so that it stays guarded.
#[derive(Clone, Copy)]
pub enum Rule {
    Plain,
    Guarded,
}
