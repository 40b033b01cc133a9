// A walk's record (01, 'Walks'), and what a start and a step hand out. The calls are `walk`'s.

#![tactic(auto)]

use refusal::Refusal;
use rings::Class;

// A walk: n, k, the ring with room for 64 sectors, those past n 0, its class, and how often each of the 16 shades stands in it, 0 for those from k up.
#[derive(Clone, Copy)]
pub struct Walk {
    pub n: usize,
    pub k: usize,
    pub ring: [u8; 64],
    pub class: Class,
    pub counts: [u8; 16],
}

// A start's answer, and the record that it hands out: an empty one where it is refused.
#[derive(Clone, Copy)]
pub struct Started {
    pub walk: Walk,
    pub answer: Result<(), Refusal>,
}

// How a step that is not refused ended: onto the next ring in so many moves; or there is none, and so many moves were left.
#[derive(Clone, Copy)]
pub enum Outcome {
    Moved(usize),
    Done(usize),
}

// A step's outcome or refusal, and the record that it hands back: the one it was given unless it moved.
#[derive(Clone, Copy)]
pub struct Stepped {
    pub walk: Walk,
    pub outcome: Result<Outcome, Refusal>,
}

// A step by necklaces that was made in the ring's own place, which nothing refuses: its outcome, and the period of the ring that it came to.
#[derive(Clone, Copy)]
pub struct Went {
    pub outcome: Outcome,
    pub period: usize,
}
