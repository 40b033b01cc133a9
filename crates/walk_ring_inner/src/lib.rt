// A step from a ring that is known to be good, in the ring's own place. No public calls.

#![tactic(auto)]

ghost use Rattle.walk_kind_laws.specs.Kinds.{ReadyToStep};
ghost use Rattle.walk_spec.specs.Says.{WentSays};

use walk_kind_laws::Kind;
use walk_spec::{Outcome, Went};

// To the next necklace, from a ring that is known to be a prenecklace: for a caller that goes from ring to ring and keeps nothing but the last, as the listing does.
pub fn go_on(ring: &mut [u8], k: usize) -> Went
    requires { ReadyToStep k ring.old }
    ensures { WentSays k ring.old ring.new result.outcome result.period }
{
    let reached = walk_moves_inner::advance(ring, k, Kind::Necklace);
    match reached.lyn {
        Some(period) => Went {
            outcome: Outcome::Moved(reached.moves),
            period,
        },
        None => Went {
            outcome: Outcome::Done(reached.moves),
            period: 0,
        },
    }
}
