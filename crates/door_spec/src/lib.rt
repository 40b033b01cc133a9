// What the calls for programs in other languages answer: numbers alone, since C knows no enum that carries something. No functions; `include/rings.h` declares the same
// structs. Each begins with `refused`, the refusal's number or 0, and `place`, its place; behind them stands what the call answers, 0 where it is refused.

#![tactic(auto)]

// An answer of one number.
#[repr(C)]
#[derive(Clone, Copy)]
pub struct RingsAnswer {
    pub refused: usize,
    pub place: usize,
    pub value: usize,
}

// A class: kind 1 loose, 2 opening, 3 repeating, 4 single, with what the class carries.
#[repr(C)]
#[derive(Clone, Copy)]
pub struct RingsClass {
    pub refused: usize,
    pub place: usize,
    pub kind: usize,
    pub value: usize,
}

// A reading that was brought home.
#[repr(C)]
#[derive(Clone, Copy)]
pub struct RingsHome {
    pub refused: usize,
    pub place: usize,
    pub shift: usize,
    pub period: usize,
}

// How far apart two readings are, and by how many turns of the first they come so near.
#[repr(C)]
#[derive(Clone, Copy)]
pub struct RingsNearest {
    pub refused: usize,
    pub place: usize,
    pub distance: usize,
    pub shift: usize,
}

// What is seen of a set: kind 1 a ring from the front, 2 one from behind, 3 several, 0 none; of one ring its number, the turns and the sectors misread.
#[repr(C)]
#[derive(Clone, Copy)]
pub struct RingsSighting {
    pub refused: usize,
    pub place: usize,
    pub kind: usize,
    pub target: usize,
    pub shift: usize,
    pub misread: usize,
}

// A step: moved 1 where there is a next ring, 0 where there is none, and the moves.
#[repr(C)]
#[derive(Clone, Copy)]
pub struct RingsStep {
    pub refused: usize,
    pub place: usize,
    pub moved: usize,
    pub moves: usize,
}

// A record that was read: kind 1 front, 2 packed, 0 at the catalogue's end.
#[repr(C)]
#[derive(Clone, Copy)]
pub struct RingsRecord {
    pub refused: usize,
    pub place: usize,
    pub kind: usize,
    pub n: usize,
    pub k: usize,
    pub next: usize,
}

// What one reflectance tells: kind 1 a shade, 2 outside, with the reflectance, 3 not a number.
#[repr(C)]
#[derive(Clone, Copy)]
pub struct RingsSector {
    pub refused: usize,
    pub place: usize,
    pub kind: usize,
    pub shade: usize,
    pub outside: f32,
}

// A set that was picked: how many rings were taken, and full 1 where that is the wanted number.
#[repr(C)]
#[derive(Clone, Copy)]
pub struct RingsSet {
    pub refused: usize,
    pub place: usize,
    pub taken: usize,
    pub full: usize,
}

// What picking a set into a lent output answers where it is not refused; the set itself is written there.
#[derive(Clone, Copy)]
pub struct Laid {
    pub taken: usize,
    pub full: bool,
}
