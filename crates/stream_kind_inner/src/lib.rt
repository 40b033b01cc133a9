// The programs that answer each line of their input by a text: which there are, how many bytes of a line tell, and how many are read at a time. No public calls.

#![tactic(auto)]

ghost use Rattle.std.specs.Prelude.{◌*◌, ◌≤◌, ◌≡◌};
ghost use Rattle.stream_kind_inner.specs.Says.{most_of, room_of};

// Which program.
#[derive(Clone, Copy)]
pub enum Kind {
    Count,
    Desk,
}

// How many bytes of a line tell.
pub fn kept_bytes(kind: Kind) -> usize
    ensures { (result ≡ most_of kind) × (result ≤ 4096) }
{
    match kind {
        Kind::Count => 9,
        Kind::Desk => 4096,
    }
}

// How many bytes are read at a time: a buffer of 1,048,576 bytes has room for the text of a line for each of them.
pub fn block_length(kind: Kind) -> usize
    ensures { (1 ≤ result) × (result ≤ 2048) × (result * room_of kind ≤ 1048576) }
{
    match kind {
        Kind::Count => 2048,
        Kind::Desk => 252,
    }
}
