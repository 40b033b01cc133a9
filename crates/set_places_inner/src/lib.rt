// Offering a ring to the places of a set, by either rule (02, g). No public calls: crate `set_choose_inner` goes through the rings.

#![tactic(auto)]

ghost use Rattle.std.specs.Prelude.{◌≡◌, ◌<◌, length};
ghost use Rattle.set_clear_inner.specs.Says.{Comparable};
ghost use Rattle.set_places_inner.specs.Says.{OfferSays, may_in};

use guard_spec::Rule;

// The sectors of a place, and the counts of its tally, one for each shade.
const SECTORS: usize = 24;

const SHADES: usize = 16;

// Whether the ring may join the readings in the first `taken` places.
fn may_join(
    rule: Rule,
    places: &[u8],
    tallies: &[u8],
    taken: usize,
    ring: &[u8],
    counts: &[u8],
    k: usize,
    d: usize,
) -> bool
    requires { Comparable places.now tallies.now taken ring.now counts.now k }
    ensures { result ≡ may_in rule (length ring.now) d places.now taken ring.now }
{
    if !set_clear_inner::is_clear(places, tallies, taken, ring, counts, k, d) {
        return false;
    }
    match rule {
        Rule::Plain => true,
        Rule::Guarded => {
            let n = ring.len();
            let mut back = [0u8; 24];
            home_reverse_inner::write_reversed(ring, &mut back[..n]);
            set_guard_inner::is_guarded(places, tallies, taken, ring, &back[..n], counts, k, d)
        }
    }
}

// Takes the ring where it may join those taken; answers how many are taken then.
pub fn offer(
    rule: Rule,
    places: &mut [u8],
    tallies: &mut [u8],
    taken: usize,
    ring: &[u8],
    counts: &[u8],
    k: usize,
    d: usize,
) -> usize
    requires comparable { Comparable places.old tallies.old taken ring.now counts.now k }
    requires taken_bound { taken < 32 }
    ensures { OfferSays rule k d places.old tallies.old taken ring.now result places.new tallies.new }
{
    if !may_join(rule, places, tallies, taken, ring, counts, k, d) {
        return taken;
    }
    let at = SECTORS * taken;
    places[at..at + ring.len()].copy_from_slice(ring);
    let first = SHADES * taken;
    tallies[first..first + SHADES].copy_from_slice(counts);
    taken + 1
}
