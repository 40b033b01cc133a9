// Whether a ring is at least so far apart from the readings in the places of a set. No public calls.

#![tactic(auto)]

ghost use Rattle.std.specs.Prelude.{◌≡◌, length};
ghost use Rattle.set_clear_inner.specs.Says.{Comparable, clear_in};

// The sectors of a place, and the counts of its tally, one for each shade.
const SECTORS: usize = 24;

const SHADES: usize = 16;

// Whether the ring is at least d apart from the readings in the first `taken` places, which have these tallies; `counts` are the ring's own. The last one taken is
// looked at first: the words come in order, so that it is the likeliest to be near.
pub fn is_clear(
    places: &[u8],
    tallies: &[u8],
    taken: usize,
    ring: &[u8],
    counts: &[u8],
    k: usize,
    d: usize,
) -> bool
    requires { Comparable places.now tallies.now taken ring.now counts.now k }
    ensures { result ≡ clear_in (length ring.now) d places.now taken ring.now }
{
    let n = ring.len();
    for j in (0..taken).rev() {
        let at = SECTORS * j;
        let first = SHADES * j;
        let place = &places[at..at + n];
        let tally = &tallies[first..first + SHADES];
        if !set_far_inner::is_far(place, tally, ring, counts, k, d) {
            return false;
        }
    }
    true
}
