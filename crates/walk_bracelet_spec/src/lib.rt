// What the step to the next bracelet answers (02, request c). The call is `walk`'s.

#![tactic(auto)]

use refusal::Refusal;
use walk_spec::Walk;

// How a step to the next bracelet that is not refused ended. It reports no moves: between two bracelets there can be more prenecklaces than a number of 64 bits holds.
#[derive(Clone, Copy)]
pub enum Arrival {
    Moved,
    Done,
}

// Its answer, and the record that it hands back: the one it was given unless it moved.
#[derive(Clone, Copy)]
pub struct Arrived {
    pub walk: Walk,
    pub arrival: Result<Arrival, Refusal>,
}
