// Whether the other side of a ring is apart from the readings in the places of a set, and the ring from itself (02, g). No public calls.

#![tactic(auto)]

ghost use Rattle.std.specs.Prelude.{◌≡◌, reverse, length};
ghost use Rattle.set_clear_inner.specs.Says.{Comparable};
ghost use Rattle.set_guard_inner.specs.Says.{guard_in};

// Whether the ring, which is `back` reversed, is steady, at least d apart from its own other side, and so from the other side from the readings in the first `taken`
// places. Few rings pass the first test, and it is the cheapest; the other side has the ring's counts.
pub fn is_guarded(
    places: &[u8],
    tallies: &[u8],
    taken: usize,
    ring: &[u8],
    back: &[u8],
    counts: &[u8],
    k: usize,
    d: usize,
) -> bool
    requires comparable { Comparable places.now tallies.now taken ring.now counts.now k }
    requires back_value { back.now ≡ reverse ring.now }
    ensures { result ≡ guard_in (length ring.now) d places.now taken ring.now }
{
    if !set_steady_inner::is_steady(ring, k, d) {
        return false;
    }
    if !set_far_inner::is_far(ring, counts, back, counts, k, d) {
        return false;
    }
    set_clear_inner::is_clear(places, tallies, taken, back, counts, k, d)
}
