// Shade counts without the shades that none is counted of, and a reading without the shades above those. No public calls.

#![tactic(auto)]

ghost use Rattle.std.specs.Prelude.{length, take};
ghost use Rattle.shades_cap_inner.specs.Capped.{CountedTo, Cappable, Capped};

// One above the last shade with a count, or 0.
pub fn counted_to(counts: &[usize]) -> usize
    ensures { CountedTo counts.now result }
{
    counts
        .iter()
        .rposition(|&count| count != 0)
        .map_or(0, |last| last + 1)
}

// The reading up to its first sector that is not below k, and from there on k - 1: a reading of k shades is above the one exactly where it is above the other.
pub fn cap(s: &[u8], k: usize) -> [u8; 64]
    requires { Cappable s.now k }
    ensures { Capped s.now k (take (length s.now) result) }
{
    let mut out = [0u8; 64];
    byte_moves_inner::copy(s, &mut out);
    let top = (k - 1) as u8;
    let from = check_numbers_inner::first_bad(s, k);
    out[from..s.len()].fill(top);
    out
}
