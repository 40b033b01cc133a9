// The shift and the period of a lent reading. No public call: the calls of `home` check what these ask for.

#![tactic(auto)]

ghost use Rattle.std.specs.Prelude.{◌≡◌, ◌<◌, ◌≤◌, length};
ghost use Rattle.rings.specs.Necklace.{repeats_by, period};
ghost use Rattle.rings.specs.Home.{shift};

// The smallest number of left turns that gives the least turn. Two turns, by i and by a greater j, are compared sector by sector. At the first
// difference, the smaller turn shows that the greater one, turned on up to there, is never least; where they do not differ, none from j on is
// the first that is least. Each comparison of two sectors makes i + j + m greater, so there are fewer than 3 n of them.
pub fn least_shift(s: &[u8]) -> usize
    requires { 0 < length s.now }
    ensures { result ≡ shift s.now }
{
    let n = s.len();
    let mut i = 0;
    let mut j = 1;
    let mut m = 0;
    while j < n {
        let x = home_turns_inner::sector(s, i, m);
        let y = home_turns_inner::sector(s, j, m);
        if x < y {
            j += m + 1;
            m = 0;
            continue;
        }
        if y < x {
            i = j.max(i + m + 1);
            j = i + 1;
            m = 0;
            continue;
        }
        m += 1;
        if m == n {
            return i;
        }
    }
    i
}

// Whether p divides the length and turning by p changes nothing.
pub fn repeats_by(s: &[u8], p: usize) -> bool
    requires { (0 < p) × (p ≤ length s.now) }
    ensures { result ≡ repeats_by s.now p }
{
    s.len() % p == 0 && home_turns_inner::same_turns(s, p, s, 0)
}

// The smallest p of at least 1 that divides the length and by which turning changes nothing.
pub fn period_of(s: &[u8]) -> usize
    requires { 0 < length s.now }
    ensures { result ≡ period s.now }
{
    let n = s.len();
    for p in 1..n {
        if repeats_by(s, p) {
            return p;
        }
    }
    n
}
