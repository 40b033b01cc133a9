// A step from a record that is known to be good, into a new one. No public calls.

#![tactic(auto)]

ghost use Rattle.refusal.specs.Order.{Passed};
ghost use Rattle.walk_kind_laws.specs.Kinds.{kind_of};
ghost use Rattle.walk_spec.specs.Record.{walk_asked};
ghost use Rattle.walk_spec.specs.Says.{StepSays};

use walk_kind_laws::Kind;
use walk_spec::{Outcome, Stepped, Walk};

// A step from a record that passed its checks.
pub fn step_good(w: Walk, kind: Kind) -> Stepped
    requires { Passed (walk_asked w) }
    ensures { StepSays (kind_of kind) w result.walk result.outcome }
{
    let n = w.n;
    let mut next = w.ring;
    let reached = walk_moves_inner::advance(&mut next[..n], w.k, kind);
    let Some(lyn) = reached.lyn else {
        return Stepped {
            walk: w,
            outcome: Ok(Outcome::Done(reached.moves)),
        };
    };
    let class = walk_moves_inner::class_at(n, lyn);
    let counts = walk_counts_inner::counts_of(next, n);
    Stepped {
        walk: Walk {
            n,
            k: w.k,
            ring: next,
            class,
            counts,
        },
        outcome: Ok(Outcome::Moved(reached.moves)),
    }
}
