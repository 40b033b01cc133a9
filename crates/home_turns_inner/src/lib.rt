// Turns of lent readings, place by place and with no second copy. No public call: the calls of `home` check what these ask for.

#![tactic(auto)]

ghost use Rattle.std.specs.Prelude.{◌≡◌, ◌<◌, ◌≤◌, length, get_or};
ghost use Rattle.words.specs.Order.{same};
ghost use Rattle.words.specs.Turn.{turn};
ghost use Rattle.home_turns_inner.specs.Around.{Around};

// The place i + m on a ring of n places, that is, wrapped once where it runs past the end.
pub fn around(n: usize, i: usize, m: usize) -> usize
    requires { (i ≤ n) × (m < n) }
    ensures { Around n i m result }
{
    let left = n - i;
    if m < left {
        return i + m;
    }
    m - left
}

// The sector at place m of s turned by i.
pub fn sector(s: &[u8], i: usize, m: usize) -> u8
    requires { (i ≤ length s.now) × (m < length s.now) }
    ensures { result ≡ get_or (turn i s.now) m 0 }
{
    let p = around(s.len(), i, m);
    s[p]
}

// Whether a turned by i is b turned by j.
pub fn same_turns(a: &[u8], i: usize, b: &[u8], j: usize) -> bool
    requires { (length a.now ≡ length b.now) × (i ≤ length a.now) × (j ≤ length b.now) }
    ensures { result ≡ same (turn i a.now) (turn j b.now) }
{
    for m in 0..a.len() {
        if sector(a, i, m) != sector(b, j, m) {
            return false;
        }
    }
    true
}

// Writes s turned by i, place by place: two copies take more of the stack (02, request e), and `rotate_left` a room of its own.
pub fn write_turn(s: &[u8], i: usize, out: &mut [u8])
    requires { (i ≤ length s.now) × (length out.old ≡ length s.now) }
    ensures { out.new ≡ turn i s.now }
{
    for m in 0..s.len() {
        out[m] = sector(s, i, m);
    }
}
