// Files gone through whole, piece after piece (issue 38's commands on catalogues): what they are gone through for, and how far a block of one was.

#![tactic(auto)]

use refusal::Refusal;

// What a file is gone through for: a catalogue is told record by record, or its records are moved to the other form.
#[derive(Clone, Copy)]
pub enum Job {
    Read,
    Move,
}

// Why a block is as far as it was gone through, unless a piece is refused: the next one follows, or the file ends.
#[derive(Clone, Copy)]
pub enum How {
    On,
    Over,
}

// How far a block was gone through: so many bytes of it, up to a place of the file, with so many bytes of output.
#[derive(Clone, Copy)]
pub struct Taken {
    pub how: Result<How, Refusal>,
    pub used: usize,
    pub place: usize,
    pub len: usize,
}
