// How far apart two lent readings are, and by which turn they come so near. No public call: the calls of `home` check what these ask for.

#![tactic(auto)]

ghost use Rattle.std.specs.Prelude.{◌≡◌, ◌<◌, length, ltb};
ghost use Rattle.rings.specs.Alike.{apart};
ghost use Rattle.home_spec.specs.Turns.{nearest_turn, steady};

// The smallest number of places at which a turn of a differs from b. A turn is given up once it is no better than the best so far, and all of them where
// that is 0.
pub fn fewest_differing(a: &[u8], b: &[u8]) -> usize
    requires { length a.now ≡ length b.now }
    ensures { result ≡ apart a.now b.now }
{
    let n = a.len();
    let mut best = n;
    for i in 0..n {
        best = home_differing_inner::differing_below(a, i, b, best);
        if best == 0 {
            return 0;
        }
    }
    best
}

// Whether a and b are less than d apart. The first turn of a that differs from b at fewer places decides, and each is given up at d.
pub fn is_nearer(a: &[u8], b: &[u8], d: usize) -> bool
    requires { (0 < length a.now) × (length a.now ≡ length b.now) }
    ensures { result ≡ ltb (apart a.now b.now) d }
{
    for j in 0..a.len() {
        if home_differing_inner::differing_below(a, j, b, d) < d {
            return true;
        }
    }
    false
}

// The fewest left turns of a after which it differs from b at `best` places, which is as few as there can be.
pub fn nearest_turn(a: &[u8], b: &[u8], best: usize) -> usize
    requires { (0 < length a.now) × (length a.now ≡ length b.now) × (best ≡ apart a.now b.now) }
    ensures { result ≡ nearest_turn a.now b.now }
{
    let limit = best + 1;
    for t in 0..a.len() {
        if home_differing_inner::differing_below(a, t, b, limit) == best {
            return t;
        }
    }
    0
}

// Whether each turn of s but itself differs from it at d places at least. The turns by more than half of its length are those the other way round.
pub fn is_steady(s: &[u8], d: usize) -> bool
    requires { 0 < length s.now }
    ensures { result ≡ steady d s.now }
{
    for j in 1..s.len() / 2 + 1 {
        if home_differing_inner::differing_below(s, j, s, d) < d {
            return false;
        }
    }
    true
}
