// At how many places a turn of one lent reading and another differ. No public calls.

#![tactic(auto)]

ghost use Rattle.std.specs.Prelude.{◌≡◌, ◌≤◌, min, length};
ghost use Rattle.words.specs.Turn.{turn};
ghost use Rattle.rings.specs.Alike.{differing};

// At how many places a turned by i and b differ, or limit where these are not fewer: it gives up once it has found so many.
pub fn differing_below(a: &[u8], i: usize, b: &[u8], limit: usize) -> usize
    requires { (length a.now ≡ length b.now) × (i ≤ length a.now) }
    ensures { result ≡ min (differing (turn i a.now) b.now) limit }
{
    let mut d = 0;
    for m in 0..a.len() {
        if limit <= d {
            return limit;
        }
        if home_turns_inner::sector(a, i, m) != b[m] {
            d += 1;
        }
    }
    d
}
