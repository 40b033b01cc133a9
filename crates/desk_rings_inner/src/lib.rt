// Rings and a reading behind them, written in words of their own: spelt end to end, and whether the rings are as long as the reading. No public calls.

#![tactic(auto)]

ghost use Rattle.std.specs.Prelude.{◌≤◌, length};
ghost use Rattle.desk_rings_inner.specs.Says.{SpeltSays, EachSays};

// Writes the sectors of all words, one after another: up to which place those of the rings lie, and up to which those of the reading; or a word is no reading.
pub fn spell_words(u: &[u8], out: &mut [u8]) -> Option<(usize, usize)>
    requires { length u.now ≤ length out.old }
    ensures { SpeltSays u.now result out.new }
{
    let mut m = 0;
    let mut c = 0;
    for &a in u {
        if a == b' ' {
            c = 0;
            continue;
        }
        let v = text_spell_inner::value_of(a)?;
        out[m] = v;
        m += 1;
        c += 1;
    }
    Some((m - c, m))
}

// Whether each word but the last has n sectors.
pub fn each_long(u: &[u8], n: usize) -> bool
    ensures { EachSays u.now n result }
{
    let mut c = 0;
    for &a in u {
        if a != b' ' {
            c += 1;
            continue;
        }
        if c != n {
            return false;
        }
        c = 0;
    }
    true
}
