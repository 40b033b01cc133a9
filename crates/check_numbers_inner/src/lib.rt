// What every check rests on: the numbers n and k, and a scan of sectors. No public calls.
// Numbers are wide (usize) until they are checked, so that 258 shades are refused and not taken for 2.

#![tactic(auto)]

ghost use Rattle.refusal.specs.Order.{CheckSays};
ghost use Rattle.refusal.specs.Calls.{numbers};
ghost use Rattle.check_numbers_inner.specs.Scan.{NoneAbove, Scanned};

use refusal::Refusal;
use rings::{FEWEST_SHADES, MOST_SECTORS, MOST_SHADES};

// The numbers that every call has: 1, 10, 2. A call with one reading gives its length for the second as well.
pub fn check_numbers(n: usize, second: usize, k: usize) -> Result<(), Refusal>
    ensures { CheckSays (numbers n second k) result }
{
    if n < 1 || MOST_SECTORS < n {
        return Err(Refusal::Length(0));
    }
    if second != n {
        return Err(Refusal::Pair);
    }
    if k < FEWEST_SHADES || MOST_SHADES < k {
        return Err(Refusal::Shades(0));
    }
    Ok(())
}

// A sector that no sector is above. There is no early way out, so that many sectors are looked at at once.
fn greatest(s: &[u8]) -> u8
    ensures { NoneAbove s.now result }
{
    let mut top = 0;
    for &here in s {
        if top < here {
            top = here;
        }
    }
    top
}

// The first sector that is not below the limit, or the length.
pub fn first_bad(s: &[u8], limit: usize) -> usize
    ensures { Scanned s.now limit result }
{
    if usize::from(greatest(s)) < limit {
        return s.len();
    }
    for (i, &here) in s.iter().enumerate() {
        if usize::from(here) >= limit {
            return i;
        }
    }
    s.len()
}
