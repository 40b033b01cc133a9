// Counting the shades of a reading. No public calls.

#![tactic(auto)]

ghost use Rattle.std.specs.Prelude.{◌≡◌, ◌≤◌, [], length};
ghost use Rattle.rings.specs.Counts.{occurs, has_counts, counted_necklace};
ghost use Rattle.ring_laws.specs.Run.{Run};
ghost use Rattle.words.specs.Sequence.{sec};
ghost use Rattle.shades_tally_inner.specs.Remaining.{Remains, Fittable, Fitted};

// How often the shade b stands in s.
fn tally(s: &[u8], b: usize) -> usize
    ensures { result ≡ occurs b s.now }
{
    let mut x = 0;
    for &here in s {
        if usize::from(here) == b {
            x += 1;
        }
    }
    x
}

// Whether s has exactly these counts.
fn has_counts(s: &[u8], counts: &[usize]) -> bool
    ensures { result ≡ has_counts counts.now s.now }
{
    for (b, &count) in counts.iter().enumerate() {
        if tally(s, b) != count {
            return false;
        }
    }
    true
}

// Whether s, a prenecklace whose lyn is p, is a necklace with exactly these counts.
pub fn is_counted(s: &[u8], p: usize, counts: &[usize]) -> bool
    requires { Run (sec s.now) (length s.now) p }
    ensures { result ≡ counted_necklace counts.now s.now }
{
    s.len() % p == 0 && has_counts(s, counts)
}

// What the counts leave where no sector is taken. By a loop: `copy_from_slice` lays them on the stack once more (docs/C.md).
fn untouched(counts: &[usize]) -> [usize; 16]
    requires { length counts.now ≤ 16 }
    ensures { Remains counts.now [] result }
{
    let mut rem = [0usize; 16];
    for (b, &count) in counts.iter().enumerate() {
        rem[b] = count;
    }
    rem
}

// How many sectors fit into counts, and what the counts leave beside those.
#[derive(Clone, Copy)]
pub struct Fit {
    pub end: usize,
    pub rem: [usize; 16],
}

// How far the sectors s fit into the counts.
pub fn fitting(counts: &[usize], s: &[u8]) -> Fit
    requires { Fittable counts.now s.now }
    ensures { Fitted counts.now s.now result }
{
    let mut rem = untouched(counts);
    for (i, &here) in s.iter().enumerate() {
        let x = usize::from(here);
        if rem[x] == 0 {
            return Fit { end: i, rem };
        }
        rem[x] -= 1;
    }
    Fit { end: s.len(), rem }
}
