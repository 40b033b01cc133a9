// The least shade to which one place of a prenecklace can be raised so that the pool leaves a completion (`shades_completable_inner`). No public calls.

#![tactic(auto)]

ghost use Rattle.std.specs.Prelude.{◌≡◌, ◌≤◌, length, take};
ghost use Rattle.shades_lift_inner.specs.Lifts.{Possible, Allows, LeftFrom, Liftable, LiftedTo};

// Whether letters can complete the first l sectors with the shade b behind them to a necklace, where rem counts what is left beside those l. The shade is put there and
// taken from what is left for the test alone: nothing is copied, and both are handed back as they came.
fn possible(w: &mut [u8], l: usize, b: usize, k: usize, rem: &mut [usize]) -> bool
    requires { Possible w.old l b k rem.old }
    ensures allows { Allows (take l w.old) b rem.old result }
    ensures w_unchanged { w.new ≡ w.old }
    ensures rem_unchanged { rem.new ≡ rem.old }
{
    let many = rem[b];
    if many == 0 {
        return false;
    }
    let shade = w[l];
    w[l] = b as u8;
    rem[b] = many - 1;
    let r = shades_completable_inner::completable(&w[..l + 1], &rem[..k]);
    w[l] = shade;
    rem[b] = many;
    r
}

// The least shade from b on of which some is left, or k.
fn left_from(rem: &[usize], b: usize, k: usize) -> usize
    requires { (b ≤ k) × (k ≤ length rem.now) }
    ensures { LeftFrom rem.now b k result }
{
    let mut x = b;
    while x < k {
        if rem[x] != 0 {
            return x;
        }
        x += 1;
    }
    x
}

// The least shade above that at place l to which letters leave a completion, or k: where the least that is left is barred, each is.
pub fn lift(w: &mut [u8], l: usize, k: usize, rem: &mut [usize]) -> usize
    requires { Liftable w.old l k rem.old }
    ensures lifted_to { LiftedTo w.old l k rem.old result }
    ensures w_unchanged { w.new ≡ w.old }
    ensures rem_unchanged { rem.new ≡ rem.old }
{
    let b = left_from(rem, (w[l] as usize) + 1, k);
    if b == k {
        return k;
    }
    if possible(w, l, b, k, rem) {
        return b;
    }
    k
}
