// What the calls by fixed shade counts answer (01, 'Walks'). The calls are `shades`'s.

#![tactic(auto)]

// What `next_ring` answers where it is not refused: the ring is in the output, or there is none.
#[derive(Clone, Copy)]
pub enum Next {
    Ring,
    Done,
}
