// The step to the next bracelet from a record that passed its checks. No public calls.

#![tactic(auto)]

ghost use Rattle.refusal.specs.Order.{Passed};
ghost use Rattle.walk_spec.specs.Record.{walk_asked};
ghost use Rattle.walk_bracelet_spec.specs.Says.{ArrivalSays};

use walk_bracelet_spec::{Arrival, Arrived};
use walk_spec::Walk;

// The record of the ring that it comes to is made as a start makes it.
pub fn step_good(w: Walk) -> Arrived
    requires { Passed (walk_asked w) }
    ensures { ArrivalSays w result.walk result.arrival }
{
    let n = w.n;
    let k = w.k;
    let mut ahead = w.ring;
    if bracelet_next_inner::next(&mut ahead[..n], k) {
        let started = walk_start_inner::start_good(&ahead[..n], k);
        return Arrived {
            walk: started.walk,
            arrival: Ok(Arrival::Moved),
        };
    }
    Arrived {
        walk: w,
        arrival: Ok(Arrival::Done),
    }
}
