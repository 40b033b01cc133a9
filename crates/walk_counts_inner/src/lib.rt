// The shade counts of a ring, 16 of them, as a walk's record carries them. No public calls.

#![tactic(auto)]

ghost use Rattle.std.specs.Prelude.{◌≡◌, ◌≤◌, take};
ghost use Rattle.words.specs.Order.{same};
ghost use Rattle.rings.specs.Counts.{counts_of};

// How often each byte stands in the first n sectors. There is a count for each of the 256, so that no sector need be asked whether it is a shade.
fn byte_counts(ring: [u8; 64], n: usize) -> [u8; 256]
    requires { n ≤ 64 }
    ensures { result ≡ counts_of 256 (take n ring) }
{
    let mut counts = [0u8; 256];
    for &sector in &ring[..n] {
        counts[usize::from(sector)] += 1;
    }
    counts
}

// How often each of the 16 shades stands in the first n sectors. A byte that is no shade is passed over.
pub fn counts_of(ring: [u8; 64], n: usize) -> [u8; 16]
    requires { n ≤ 64 }
    ensures { result ≡ counts_of 16 (take n ring) }
{
    let all = byte_counts(ring, n);
    let mut counts = [0u8; 16];
    counts.copy_from_slice(&all[..16]);
    counts
}

// Whether the counts are the same, all 16 of them.
pub fn same_counts(a: [u8; 16], b: [u8; 16]) -> bool
    ensures { result ≡ same a b }
{
    a == b
}
