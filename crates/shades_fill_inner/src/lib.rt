// The letters of shade counts in increasing order. No public calls.

#![tactic(auto)]

ghost use Rattle.std.specs.Prelude.{◌≡◌, ◌++◌, ◌-◌, ◌≤◌, length, take, replicate};
ghost use Rattle.words.specs.Sum.{sum_of};
ghost use Rattle.shades_laws.specs.Letters.{letters};
ghost use Rattle.shades_fill_inner.specs.Fillable.{Fillable};

// The letter x at the places from i up to e.
fn put(w: &mut [u8], i: usize, e: usize, x: u8)
    requires { (i ≤ e) × (e ≤ length w.old) }
    ensures { take e w.new ≡ take i w.old ++ replicate (e - i) x }
{
    w[i..e].fill(x);
}

// The letters of the counts in increasing order, at the front of w; how many they are.
pub fn fill(w: &mut [u8], counts: &[usize]) -> usize
    requires { Fillable w.old counts.now }
    ensures { (result ≡ sum_of counts.now) × (take result w.new ≡ letters counts.now) }
{
    let mut l = 0;
    for (b, &count) in counts.iter().enumerate() {
        let e = l + count;
        put(w, l, e, b as u8);
        l = e;
    }
    l
}
