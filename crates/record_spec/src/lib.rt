// A catalogue's record (01, 'Catalogue records'; 02, k): its kind, and what reading and writing it answer. The calls are those of `catalogue` and `writer`.

#![tactic(auto)]

// The mark: its first byte, its second byte in a front record and in a packed one, and that of a back record, which is retired (02, j).
pub const MARK: u8 = b'R';

pub const FRONT_MARK: u8 = b'F';

pub const PACKED_MARK: u8 = b'P';

pub const RETIRED_MARK: u8 = b'B';

// The bytes before the sectors: the mark, n and k.
pub const HEAD: usize = 4;

// The mark's kind: the front ring's sectors stand there a byte each, or packed.
#[derive(Clone, Copy)]
pub enum Kind {
    Front,
    Packed,
}

// What reading a record answers, unless it is the end (`None`) or refused; the front ring itself is written to the output.
#[derive(Clone, Copy)]
pub struct Record {
    pub n: usize,
    pub k: usize,
    pub kind: Kind,
    pub next: usize,
}
