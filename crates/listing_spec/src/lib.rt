// Where a listing stands, and a page of it (01, 'The listing program'). No code: crate `listing` makes pages.

#![tactic(auto)]

// Where a listing stands: k and n, the ring with room for 64 sectors, the number of rings up to it and the sum of their moves.
#[derive(Clone, Copy)]
pub struct State {
    pub k: usize,
    pub n: usize,
    pub ring: [u8; 64],
    pub rings: usize,
    pub moves: usize,
}

// A page: how many bytes of the buffer it has, and where the listing stands behind it.
#[derive(Clone, Copy)]
pub struct Page {
    pub length: usize,
    pub state: State,
}
