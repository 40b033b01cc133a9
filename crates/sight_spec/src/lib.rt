// What looking for a reading among the rings of a set answers. No functions: the call is `sight`'s.

#![tactic(auto)]

// The one ring that is seen, from the front or from behind: its number in the set, how many turns bring the reading, or the reading reversed where it is seen from behind, to it,
// and how many sectors then differ. Or several rings, or sides of rings, are seen, or none is.
#[derive(Clone, Copy)]
pub enum Sighting {
    Front {
        target: usize,
        shift: usize,
        misread: usize,
    },
    Back {
        target: usize,
        shift: usize,
        misread: usize,
    },
    Several,
    Unknown,
}
