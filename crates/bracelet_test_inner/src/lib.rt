// Whether a reading is the one ring of its mirror pair (02, request c), in one scan of the reading and one of its reverse. No public calls.

#![tactic(auto)]

ghost use Rattle.std.specs.Prelude.{◌≡◌, true, ◌<◌, length};
ghost use Rattle.rings.specs.Necklace.{necklace};
ghost use Rattle.rings.specs.Alike.{bracelet};

// Whether a necklace is not above its mirror image. It is held against the reverse turned by i, whose first j sectors it matches. At a smaller sector
// it is above; at a greater one it is below this turn and, being a prenecklace, below the next j as well; and where it matches to the end it is
// even-handed. So each look makes i + j greater, and at most 2 n looks are made.
fn not_above_mirror(s: &[u8]) -> bool
    requires { (0 < length s.now) × (necklace s.now ≡ true) }
    ensures { result ≡ bracelet s.now }
{
    let n = s.len();
    let mut i: usize = 0;
    let mut j: usize = 0;
    while i < n {
        if j == n {
            return true;
        }
        let p = n - 1 - home_turns_inner::around(n, i, j);
        let there = s[p];
        let here = s[j];
        if there < here {
            return false;
        }
        if there == here {
            j += 1;
            continue;
        }
        i += j + 1;
        j = 0;
    }
    true
}

// Whether a reading is a bracelet.
pub fn is_bracelet(s: &[u8]) -> bool
    requires { 0 < length s.now }
    ensures { result ≡ bracelet s.now }
{
    let n = s.len();
    let begun = classify_inner::scan(s);
    if begun.end < n {
        return false;
    }
    let p = begun.lyn;
    if n % p != 0 {
        return false;
    }
    not_above_mirror(s)
}
