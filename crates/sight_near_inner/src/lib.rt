// Which of the rings that lie end to end are near a reading. No public calls.

#![tactic(auto)]

ghost use Rattle.std.specs.Prelude.{◌≡◌, ◌<◌, ◌≤◌, ◌/◌, min, suc, length};
ghost use Rattle.sight_spec.specs.Rings.{rings_in};
ghost use Rattle.sight_near_inner.specs.Says.{FirstNear, NearSays};

// Which of the rings are near a reading: none, the one of this number, or more.
#[derive(Clone, Copy)]
pub enum Near {
    Nobody,
    One(usize),
    Many,
}

// How many differing sectors are too many: one more than may be misread, or than there are.
fn limit_of(n: usize, most: usize) -> usize
    requires { n ≤ 64 }
    ensures { result ≡ suc (min n most) }
{
    n.min(most) + 1
}

// The first ring from the number `from` on that is at most `most` apart from the reading, or how many rings there are. A turn is given up once it differs at too many sectors.
fn first_near(rings: &[u8], reading: &[u8], from: usize, most: usize) -> usize
    requires { (0 < length reading.now) × (length reading.now ≤ 64) × (from ≤ length rings.now / length reading.now) }
    ensures { FirstNear most rings.now reading.now from result }
{
    let n = reading.len();
    let m = rings.len() / n;
    let limit = limit_of(n, most);
    for j in from..m {
        let at = n * j;
        if home_nearest_inner::is_nearer(reading, &rings[at..at + n], limit) {
            return j;
        }
    }
    m
}

// Which of the rings are near.
pub fn which_near(rings: &[u8], reading: &[u8], most: usize) -> Near
    requires { (0 < length reading.now) × (length reading.now ≤ 64) }
    ensures { NearSays most (rings_in (length reading.now) rings.now) reading.now result }
{
    let m = rings.len() / reading.len();
    let j = first_near(rings, reading, 0, most);
    if m <= j {
        return Near::Nobody;
    }
    let i = first_near(rings, reading, j + 1, most);
    if i < m {
        return Near::Many;
    }
    Near::One(j)
}
