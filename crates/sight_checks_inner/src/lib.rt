// The checks of a reading and of rings that lie end to end: 1, 10, 2, 3. No public calls: crate `sight` makes them.

#![tactic(auto)]

ghost use Rattle.refusal.specs.Order.{CheckSays};
ghost use Rattle.sight_spec.specs.Rings.{sight_order};
ghost use Rattle.sight_checks_inner.specs.Says.{SectorsSay};

use refusal::Refusal;
use rings::{FEWEST_SHADES, MOST_SECTORS, MOST_SHADES};

// The sectors of the reading, and then of the rings, whose places count on from n.
fn check_sectors(rings: &[u8], reading: &[u8], k: usize) -> Result<(), Refusal>
    ensures { SectorsSay reading.now rings.now k result }
{
    let n = reading.len();
    let i = check_numbers_inner::first_bad(reading, k);
    if i < n {
        return Err(Refusal::Sector(i));
    }
    let j = check_numbers_inner::first_bad(rings, k);
    if j < rings.len() {
        return Err(Refusal::Sector(n + j));
    }
    Ok(())
}

// 1 of the reading; 10 where the rings are no whole number of rings as long as it; 2; then 3.
pub fn check_rings(rings: &[u8], reading: &[u8], k: usize) -> Result<(), Refusal>
    ensures { CheckSays (sight_order reading.now rings.now k) result }
{
    let n = reading.len();
    if n < 1 || MOST_SECTORS < n {
        return Err(Refusal::Length(0));
    }
    if rings.len() % n != 0 {
        return Err(Refusal::Pair);
    }
    if k < FEWEST_SHADES || MOST_SHADES < k {
        return Err(Refusal::Shades(0));
    }
    check_sectors(rings, reading, k)
}
