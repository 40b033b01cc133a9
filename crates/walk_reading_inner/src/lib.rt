// Steps from a lent reading that passed the checks. No public calls.

#![tactic(auto)]

ghost use Rattle.std.specs.Prelude.{◌≡◌, length, Ok};
ghost use Rattle.refusal.specs.Order.{Passed};
ghost use Rattle.walk_kind_laws.specs.Kinds.{kind_of};
ghost use Rattle.walk_reading_spec.specs.Says.{reading_order, StepFromSays, BraceletFromSays};

use walk_bracelet_spec::Arrival;
use walk_kind_laws::Kind;
use walk_spec::Outcome;

// A step from a reading that passed, made in `ring`, since the output stays as it is where there is no next ring.
pub fn step_in(reading: &[u8], k: usize, kind: Kind, ring: &mut [u8], out: &mut [u8]) -> Outcome
    requires passed { Passed (reading_order reading.now k (length out.old)) }
    requires ring_len { length ring.old ≡ length reading.now }
    ensures { StepFromSays (kind_of kind) reading.now k out.old (Ok result) out.new }
{
    byte_moves_inner::copy(reading, ring);
    let reached = walk_moves_inner::advance(ring, k, kind);
    let Some(_) = reached.lyn else {
        return Outcome::Done(reached.moves);
    };
    byte_moves_inner::copy(ring, out);
    Outcome::Moved(reached.moves)
}

// The same to the next bracelet.
pub fn bracelet_in(reading: &[u8], k: usize, ring: &mut [u8], out: &mut [u8]) -> Arrival
    requires passed { Passed (reading_order reading.now k (length out.old)) }
    requires ring_len { length ring.old ≡ length reading.now }
    ensures { BraceletFromSays reading.now k out.old (Ok result) out.new }
{
    byte_moves_inner::copy(reading, ring);
    if bracelet_next_inner::next(ring, k) {
        byte_moves_inner::copy(ring, out);
        return Arrival::Moved;
    }
    Arrival::Done
}
