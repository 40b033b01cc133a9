// How a reading is brought as near to a ring as they are apart. No public calls.

#![tactic(auto)]

ghost use Rattle.std.specs.Prelude.{◌≡◌, ◌<◌, ◌/◌, length};
ghost use Rattle.sight_spec.specs.Rings.{ring_at};
ghost use Rattle.sight_turn_inner.specs.Says.{Turns};

use home_spec::Nearest;

// How a is brought as near to b as they are apart.
fn nearest(a: &[u8], b: &[u8]) -> Nearest
    requires { (0 < length a.now) × (length a.now ≡ length b.now) }
    ensures { Turns a.now b.now result.shift result.distance }
{
    let distance = home_nearest_inner::fewest_differing(a, b);
    let shift = home_nearest_inner::nearest_turn(a, b, distance);
    Nearest { distance, shift }
}

// How the reading is brought to the ring number j.
pub fn nearest_to(rings: &[u8], reading: &[u8], j: usize) -> Nearest
    requires { (0 < length reading.now) × (j < length rings.now / length reading.now) }
    ensures { Turns reading.now (ring_at (length reading.now) rings.now j) result.shift result.distance }
{
    let n = reading.len();
    let at = n * j;
    nearest(reading, &rings[at..at + n])
}
