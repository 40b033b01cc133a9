// What a sheet of targets is asked. The call is `sheets`'s, and answers as drawing does. No functions.

#![tactic(auto)]

use picture_spec::Tone;

// Where the rings of a sheet come from: the guarded choice, the plain one, or rings of one's own.
#[derive(Clone, Copy)]
pub enum Source {
    Guarded,
    Plain,
    Own,
}

// A sheet's rings have n sectors and k shades; for a set, d and the wanted number are those it was chosen by. The targets are so many mm wide, in so many columns.
#[derive(Clone, Copy)]
pub struct Sheet {
    pub n: usize,
    pub k: usize,
    pub d: usize,
    pub wanted: usize,
    pub source: Source,
    pub tone: Tone,
    pub size: usize,
    pub columns: usize,
}
