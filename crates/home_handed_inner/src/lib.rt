// Even-handed readings. No public call: `home::even_handed` is.

#![tactic(auto)]

ghost use Rattle.std.specs.Prelude.{◌≡◌};
ghost use Rattle.rings.specs.Alike.{even_handed};

// Whether some turn of the reversed bytes equals the bytes. Yes at the first turn that matches in every sector.
// Two loops and no iterator, for 01, 'Forms we want to see', asks for them: a mismatch continues the outer label, a full match leaves both.
pub fn is_even_handed(s: &[u8]) -> bool
    ensures { result ≡ even_handed s.now }
{
    let n = s.len();
    let mut found = false;
    'turns: for t in 0..n {
        for m in 0..n {
            let p = n - 1 - home_turns_inner::around(n, t, m);
            if s[p] != s[m] {
                continue 'turns;
            }
        }
        found = true;
        break 'turns;
    }
    found
}
