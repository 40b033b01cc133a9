// Whether a listing can go on from a state (01, 'The listing program'). No public calls: crate `listing` asks.

#![tactic(auto)]

ghost use Rattle.listing_spec.specs.State.{GoodState};
ghost use Rattle.listing_states_inner.specs.Says.{NecklaceOf, TellsWhether};

use limits::MOST_LISTED;
use listing_spec::State;

// Whether these sectors are a necklace of k shades.
fn is_ring(ring: &[u8], k: usize) -> bool
    ensures { TellsWhether result (NecklaceOf ring.now k) }
{
    let Ok(c) = classify::classify(ring, k) else {
        return false;
    };
    classify_inner::is_necklace(c)
}

// Whether the ring is a necklace of numbers that may be listed, and the counts are none that no listing has.
pub fn is_good(s: State) -> bool
    ensures { TellsWhether result (GoodState s) }
{
    if MOST_LISTED < s.rings {
        return false;
    }
    if MOST_LISTED < s.moves {
        return false;
    }
    limits::plan_numbers(s.k, s.n, MOST_LISTED).is_ok() && is_ring(&s.ring[..s.n], s.k)
}
