// The checks of a step from a lent reading. No public calls.

#![tactic(auto)]

ghost use Rattle.refusal.specs.Order.{CheckSays};
ghost use Rattle.walk_reading_spec.specs.Says.{reading_order};

use refusal::Refusal;
use rings::Class;

// The checks, for an output of `room` places: 1, 2, 3, 4, 5.
pub fn check_step(reading: &[u8], k: usize, room: usize) -> Result<(), Refusal>
    ensures { CheckSays (reading_order reading.now k room) result }
{
    check_readings_inner::check_room(reading, k, room)?;
    if let Class::Loose(at) = classify_inner::class_of(reading) {
        return Err(Refusal::OffWalk(at));
    }
    Ok(())
}
