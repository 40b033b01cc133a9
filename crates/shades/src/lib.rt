// Rings of fixed shade counts (01, 'Walks'): the first, and the next from any reading. A call that is refused, or done, writes nothing.
// What the calls promise stands in `shades_spec`.

#![tactic(auto)]

ghost use Rattle.shades_spec.specs.Answers.{FirstSays, NextSays};

use refusal::Refusal;
pub use shades_spec::Next;

// The least necklace of k shades with exactly these counts; its n is the length of the output.
pub fn first_ring(k: usize, counts: &[usize], out: &mut [u8]) -> Result<(), Refusal>
    ensures { FirstSays k counts.now out.old result out.new }
{
    check_counts_inner::check_first(out.len(), k, counts)?;
    shades_fill_inner::fill(out, counts);
    Ok(())
}

// The least necklace of k shades with exactly these counts that is greater than the reading s.
pub fn next_ring(s: &[u8], k: usize, counts: &[usize], out: &mut [u8]) -> Result<Next, Refusal>
    ensures { NextSays s.now k counts.now out.old result out.new }
{
    check_counts_inner::check_next(s, k, out.len(), counts)?;
    let n = s.len();
    let j = shades_cap_inner::counted_to(counts);
    let start = shades_cap_inner::cap(s, j);
    let found = shades_next_inner::above(start, n, j, &counts[..j]);
    if !found.some {
        return Ok(Next::Done);
    }
    let ring = found.ring;
    out.copy_from_slice(&ring[..n]);
    Ok(Next::Ring)
}
