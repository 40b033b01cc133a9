// What bringing home and the nearest turn answer, what the calls on readings promise, and that each has one answer. No functions.

#![tactic(auto)]

// Where a reading that is brought home has its home reading; this itself is written to the output.
#[derive(Clone, Copy)]
pub struct Home {
    pub shift: usize,
    pub period: usize,
}

// How far apart two readings are, and by how many left turns of the first they come so near, the fewest that do.
#[derive(Clone, Copy)]
pub struct Nearest {
    pub distance: usize,
    pub shift: usize,
}
