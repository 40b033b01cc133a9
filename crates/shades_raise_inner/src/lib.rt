// The last place of a prenecklace that can be raised so that the pool leaves a completion (`shades_completable_inner`). No public calls.

#![tactic(auto)]

ghost use Rattle.shades_raise_inner.specs.Places.{Seeking, Headed, PlaceFound};
ghost use Rattle.shades_raise_inner.specs.Ready.{Opening};

use shades_tally_inner::Fit;

// A place, counted from 1, and the shade to which it is raised; 0 and 0 where there is none.
#[derive(Clone, Copy)]
pub struct Place {
    pub end: usize,
    pub shade: usize,
}

// How far a ring of these counts may follow w, and what the counts leave beside that: no place behind can be raised. Where p is less than n the first p sectors are a Lyndon
// word, and where no letters like those that are left can end a necklace that begins with it, no ring goes on so far: that is looked at behind each fourth place.
fn reach(w: [u8; 64], n: usize, k: usize, p: usize, counts: &[usize]) -> Fit
    requires { Opening w n k counts.now × Headed w n p }
    ensures { Seeking w n k counts.now result.end result.rem }
{
    if n <= p {
        return shades_tally_inner::fitting(counts, &w[..n - 1]);
    }
    let fit = shades_tally_inner::fitting(counts, &w[..p]);
    if fit.end < p {
        return fit;
    }
    let mut i = p;
    let mut rem = fit.rem;
    while i + 1 < n {
        let x = w[i] as usize;
        if rem[x] == 0 {
            return Fit { end: i, rem: rem };
        }
        rem[x] -= 1;
        if i % 4 != 3 {
            i += 1;
            continue;
        }
        if !shades_completable_inner::completable(&w[..p], &rem[..k]) {
            rem[x] += 1;
            return Fit { end: i, rem: rem };
        }
        i += 1;
    }
    Fit { end: i, rem: rem }
}

// The last place that can be raised so that a ring of these counts begins so.
pub fn find(w: [u8; 64], n: usize, k: usize, p: usize, counts: &[usize]) -> Place
    requires { Opening w n k counts.now × Headed w n p }
    ensures { PlaceFound w n k counts.now result }
{
    let fit = reach(w, n, k, p, counts);
    let mut i = fit.end;
    let mut rem = fit.rem;
    let mut al = w;
    loop {
        let b = shades_lift_inner::lift(&mut al, i, k, &mut rem);
        if b < k {
            return Place {
                end: i + 1,
                shade: b,
            };
        }
        if i == 0 {
            return Place { end: 0, shade: 0 };
        }
        i -= 1;
        let x = w[i] as usize;
        rem[x] += 1;
    }
}
