// What picking a target set answers (02, g). The call is `sets`'s.

#![tactic(auto)]

use refusal::Refusal;

// The set in 32 places of 24 sectors, in the order taken and everything unused 0; how many were taken, and whether that is the wanted number. A refusal has
// taken none, and is not full.
#[derive(Clone, Copy)]
pub struct Picked {
    pub places: [u8; 768],
    pub taken: usize,
    pub full: bool,
    pub answer: Result<(), Refusal>,
}
