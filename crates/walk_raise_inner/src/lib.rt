// One move (001, Definition 2): the last place to raise, and raising it. No public calls.

#![tactic(auto)]

ghost use Rattle.std.specs.Prelude.{◌≡◌, ◌+◌, ◌<◌, length, get_or};
ghost use Rattle.rings.specs.Next.{raised, repeated};
ghost use Rattle.walk_raise_inner.specs.Low.{LastLow};

// The last place that holds less than k - 1, if there is one. The last sector is tested apart: it is the one in most rings. The others are counted down by hand: with
// `rposition` in place of either, a listing and a strip take some tenths more instructions.
pub fn last_low(s: &[u8], k: usize) -> Option<usize>
    ensures { LastLow k s.now result }
{
    let n = s.len();
    if n == 0 {
        return None;
    }
    let top = k.saturating_sub(1);
    if usize::from(s[n - 1]) < top {
        return Some(n - 1);
    }
    let mut i = n - 1;
    while 0 < i {
        i -= 1;
        if usize::from(s[i]) < top {
            return Some(i);
        }
    }
    None
}

// The sector at the place is raised by one, and the sectors up to it are repeated behind it: `from` goes round in them.
pub fn raise(s: &mut [u8], at: usize)
    requires { (at < length s.old) × (get_or s.old at 0 < 255) }
    ensures { s.new ≡ repeated (length s.old) (raised (at + 1) s.old) }
{
    s[at] += 1;
    let mut from = 0;
    for i in at + 1..s.len() {
        s[i] = s[from];
        from = if from == at { 0 } else { from + 1 };
    }
}
