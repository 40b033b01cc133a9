// Walks (01, 'Walks'): one record, a start and three steps, and the step to the next bracelet (02, request c). The record and what is promised of it stand in
// `walk_spec`, what the last step promises in `walk_bracelet_spec`.

#![tactic(auto)]

ghost use Rattle.rings.specs.Necklace.{necklace, lyndon};
ghost use Rattle.rings.specs.Prenecklace.{prenecklace};
ghost use Rattle.walk_kind_laws.specs.Kinds.{kind_of};
ghost use Rattle.walk_spec.specs.Says.{StartSays, StepSays};
ghost use Rattle.walk_bracelet_spec.specs.Says.{ArrivalSays};

pub use walk_bracelet_spec::{Arrival, Arrived};
use walk_kind_laws::Kind;
pub use walk_spec::{Outcome, Started, Stepped, Walk};

// A walk from a lent prenecklace: its record, or 1, 2, 3, 5.
pub fn start(s: &[u8], k: usize) -> Started
    ensures { StartSays s.now k result.walk result.answer }
{
    match check_readings_inner::check_reading(s, k) {
        Err(r) => Started {
            walk: walk_record_inner::empty(),
            answer: Err(r),
        },
        Ok(()) => walk_start_inner::start_good(s, k),
    }
}

// ---- the steps

fn step(w: Walk, kind: Kind) -> Stepped
    ensures { StepSays (kind_of kind) w result.walk result.outcome }
{
    match walk_checks_inner::check_walk(w) {
        Err(r) => Stepped {
            walk: w,
            outcome: Err(r),
        },
        Ok(()) => walk_step_inner::step_good(w, kind),
    }
}

// To the least prenecklace of the same n and k above the present ring.
pub fn next_prenecklace(w: Walk) -> Stepped
    ensures { StepSays prenecklace w result.walk result.outcome }
{
    step(w, Kind::Prenecklace)
}

// To the least necklace above.
pub fn next_necklace(w: Walk) -> Stepped
    ensures { StepSays necklace w result.walk result.outcome }
{
    step(w, Kind::Necklace)
}

// To the least Lyndon word above.
pub fn next_lyndon(w: Walk) -> Stepped
    ensures { StepSays lyndon w result.walk result.outcome }
{
    step(w, Kind::Lyndon)
}

// ---- one ring from each mirror pair

// To the least bracelet above: the least necklace above the present ring that is not above the home reading of its reverse. It reports no moves.
pub fn next_bracelet(w: Walk) -> Arrived
    ensures { ArrivalSays w result.walk result.arrival }
{
    match walk_checks_inner::check_walk(w) {
        Err(r) => Arrived {
            walk: w,
            arrival: Err(r),
        },
        Ok(()) => walk_bracelet_inner::step_good(w),
    }
}
