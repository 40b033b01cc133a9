// The next ring of given shade counts above a reading. No public call of the catalogue: those of `shades` check what these ask for.
// Rings are looked for from one prenecklace to a greater one. Each time the last place is found that can be raised so that the pool leaves a
// completion (`shades_raise_inner`); what follows that place repeats what stands before it.

#![tactic(auto)]

ghost use Rattle.shades_raise_inner.specs.Ready.{Ready, Opening};
ghost use Rattle.shades_raise_inner.specs.Places.{Headed};
ghost use Rattle.shades_next_inner.specs.Runs.{Repeatable, Repeats};
ghost use Rattle.shades_next_inner.specs.Above.{Finds};

// The first p sectors, a Lyndon word, are repeated behind themselves.
fn repeat(s: &mut [u8], p: usize)
    requires { Repeatable s.old p }
    ensures { Repeats p s.old s.new }
{
    let mut m = p;
    while m < s.len() {
        s[m] = s[m - p];
        m += 1;
    }
}

// A ring, where there is some, and how many places were raised to find it or to see that there is none.
#[derive(Clone, Copy)]
pub struct Sought {
    pub some: bool,
    pub ring: [u8; 64],
    pub raised: usize,
}

// The least ring of these counts above the prenecklace in the first n sectors, whose lyn is p. Each round raises a place further right: there are at most n.
fn seek(start: [u8; 64], n: usize, k: usize, p: usize, counts: &[usize]) -> Sought
    requires { Opening start n k counts.now × Headed start n p }
    ensures { Finds start n k counts.now result }
{
    let mut ring = start;
    let mut lyn = p;
    let mut raised: usize = 0;
    loop {
        let place = shades_raise_inner::find(ring, n, k, lyn, counts);
        let i = place.end;
        if i == 0 {
            return Sought {
                some: false,
                ring: ring,
                raised: raised,
            };
        }
        ring[i - 1] = place.shade as u8;
        repeat(&mut ring[..n], i);
        raised += 1;
        if shades_tally_inner::is_counted(&ring[..n], i, counts) {
            return Sought {
                some: true,
                ring: ring,
                raised: raised,
            };
        }
        lyn = i;
    }
}

// The least ring of these counts above the reading in the first n sectors.
pub fn above(start: [u8; 64], n: usize, k: usize, counts: &[usize]) -> Sought
    requires { Ready start n k counts.now }
    ensures { Finds start n k counts.now result }
{
    let begun = classify_inner::scan(&start[..n]);
    let p = begun.lyn;
    if begun.end == n {
        return seek(start, n, k, p, counts);
    }
    let mut ring = start;
    repeat(&mut ring[..n], p);
    if shades_tally_inner::is_counted(&ring[..n], p, counts) {
        return Sought {
            some: true,
            ring: ring,
            raised: 0,
        };
    }
    seek(ring, n, k, p, counts)
}
