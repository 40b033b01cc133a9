// A ring seen from the other side, made where it is to stand: no second copy of it. No public calls: the callers check what these ask for.

#![tactic(auto)]

ghost use Rattle.std.specs.Prelude.{◌≡◌, ◌<◌, ◌≤◌, length};
ghost use Rattle.words.specs.Turn.{turn};
ghost use Rattle.rings.specs.Home.{home};
ghost use Rattle.rings.specs.Alike.{mirrored};

// Writes the ring as seen from the other side: the reversed reading, brought home.
pub fn turn_over(s: &[u8], out: &mut [u8])
    requires { (0 < length s.now) × (length out.old ≡ length s.now) }
    ensures { out.new ≡ mirrored s.now }
{
    home_reverse_inner::write_reversed(s, out);
    settle(out);
}

// Brings a reading home where it stands.
fn settle(a: &mut [u8])
    requires { 0 < length a.old }
    ensures { a.new ≡ home a.old }
{
    let i = home_shift_inner::least_shift(a);
    turn_there(a, i);
}

// Turns a reading by i where it stands: each of its two parts is reversed, and then the whole.
fn turn_there(a: &mut [u8], i: usize)
    requires { i ≤ length a.old }
    ensures { a.new ≡ turn i a.old }
{
    let n = a.len();
    byte_moves_inner::reverse(a, 0, i);
    byte_moves_inner::reverse(a, i, n);
    byte_moves_inner::reverse(a, 0, n);
}
