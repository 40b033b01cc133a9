// What the report prints (02, request f), whole and block after block, as definitions (specs/), and that they determine it (proofs/). The types that the calls of
// `report` hand out.

#![tactic(auto)]

// Between two blocks of an input: the first bytes of the line under way, and how many there are. The bytes past them are 0.
#[derive(Clone, Copy)]
pub struct Pending {
    pub line: [u8; 9],
    pub len: usize,
}

// Behind a block: the line under way, how many bytes of the block were taken, and how many bytes of text stand in the buffer.
#[derive(Clone, Copy)]
pub struct Fed {
    pub state: Pending,
    pub taken: usize,
    pub length: usize,
}
