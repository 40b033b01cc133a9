// The checks of shade counts: how many there are and their exact sum, behind those of the numbers or of a reading with an output.

#![tactic(auto)]

ghost use Rattle.refusal.specs.Order.{CheckSays};
ghost use Rattle.refusal.specs.Calls.{CountsFit, counted_first, counted_next};
ghost use Rattle.check_counts_inner.specs.Told.{Told};

use refusal::Refusal;

// Whether there are k counts and their exact sum is n. It counts down from n, so that nothing wraps.
fn counts_fit(counts: &[usize], k: usize, n: usize) -> bool
    ensures { Told result (CountsFit counts.now k n) }
{
    if counts.len() != k {
        return false;
    }
    let mut left = n;
    for &x in counts {
        if left < x {
            return false;
        }
        left -= x;
    }
    left == 0
}

// Counts and an output of n places: 1, 2, 6.
pub fn check_first(n: usize, k: usize, counts: &[usize]) -> Result<(), Refusal>
    ensures { CheckSays (counted_first n k counts.now) result }
{
    check_numbers_inner::check_numbers(n, n, k)?;
    if !counts_fit(counts, k, n) {
        return Err(Refusal::Counts);
    }
    Ok(())
}

// One reading, an output of `room` places, and counts: 1, 2, 3, 4, 6.
pub fn check_next(s: &[u8], k: usize, room: usize, counts: &[usize]) -> Result<(), Refusal>
    ensures { CheckSays (counted_next s.now k room counts.now) result }
{
    check_readings_inner::check_room(s, k, room)?;
    if !counts_fit(counts, k, s.len()) {
        return Err(Refusal::Counts);
    }
    Ok(())
}
