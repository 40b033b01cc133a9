// The record that a start hands out. No public calls.

#![tactic(auto)]

ghost use Rattle.refusal.specs.Order.{Passed};
ghost use Rattle.refusal.specs.Calls.{one_reading};
ghost use Rattle.walk_spec.specs.Says.{StartSays};

use refusal::Refusal;
use rings::Class;
use walk_spec::{Started, Walk};

// A start from a reading that passed 1, 2, 3: 5.
pub fn start_good(s: &[u8], k: usize) -> Started
    requires { Passed (one_reading s.now k) }
    ensures { StartSays s.now k result.walk result.answer }
{
    let class = classify_inner::class_of(s);
    if let Class::Loose(at) = class {
        return Started {
            walk: walk_record_inner::empty(),
            answer: Err(Refusal::OffWalk(at)),
        };
    }
    let ring = walk_record_inner::lay_out(s);
    let counts = walk_counts_inner::counts_of(ring, s.len());
    Started {
        walk: Walk {
            n: s.len(),
            k,
            ring,
            class,
            counts,
        },
        answer: Ok(()),
    }
}
