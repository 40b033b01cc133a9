// Looking for a reading among rings that lie end to end. No public calls: `sight` checks what these ask for.

#![tactic(auto)]

ghost use Rattle.std.specs.Prelude.{◌≡◌, reverse, ◌<◌, ◌≤◌, length};
ghost use Rattle.sight_spec.specs.Says.{Seen};

use sight_near_inner::Near;
use sight_spec::Sighting;

// What is seen, from the front and, with the reading reversed, from behind.
fn decide(rings: &[u8], reading: &[u8], back: &[u8], most: usize) -> Sighting
    requires { (0 < length reading.now) × (length reading.now ≤ 64) × (back.now ≡ reverse reading.now) }
    ensures { Seen rings.now reading.now most result }
{
    let front = sight_near_inner::which_near(rings, reading, most);
    let behind = sight_near_inner::which_near(rings, back, most);
    match front {
        Near::Many => Sighting::Several,
        Near::One(j) => match behind {
            Near::Many => Sighting::Several,
            Near::One(_) => Sighting::Several,
            Near::Nobody => {
                let t = sight_turn_inner::nearest_to(rings, reading, j);
                Sighting::Front {
                    target: j,
                    shift: t.shift,
                    misread: t.distance,
                }
            }
        },
        Near::Nobody => match behind {
            Near::Many => Sighting::Several,
            Near::One(j) => {
                let t = sight_turn_inner::nearest_to(rings, back, j);
                Sighting::Back {
                    target: j,
                    shift: t.shift,
                    misread: t.distance,
                }
            }
            Near::Nobody => Sighting::Unknown,
        },
    }
}

// What is seen.
pub fn look(rings: &[u8], reading: &[u8], most: usize) -> Sighting
    requires { (0 < length reading.now) × (length reading.now ≤ 64) }
    ensures { Seen rings.now reading.now most result }
{
    let n = reading.len();
    let mut back = [0u8; 64];
    home_reverse_inner::write_reversed(reading, &mut back[..n]);
    decide(rings, reading, &back[..n], most)
}
