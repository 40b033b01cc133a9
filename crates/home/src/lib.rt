// Bringing a reading home, and comparing readings (01, 'Rules the work stands on').
// The four calls that `.ci/stack` measures go through a check's answer by `match`: with `?`, and no function laid into another, they take more of the stack than their
// bounds (02, request e).

#![tactic(auto)]

ghost use Rattle.std.specs.Prelude.{ltb};
ghost use Rattle.refusal.specs.Calls.{one_reading, two_readings};
ghost use Rattle.rings.specs.Alike.{even_handed, same_ring, apart};
ghost use Rattle.home_spec.specs.Turns.{steady};
ghost use Rattle.home_spec.specs.Says.{HomeSays, ToldSays, DistanceSays, ClosestSays};

pub use home_spec::{Home, Nearest};
use refusal::Refusal;

// Writes the home reading and answers its shift and period, or refusal 1, 2, 3 or 4.
pub fn bring_home(s: &[u8], k: usize, out: &mut [u8]) -> Result<Home, Refusal>
    ensures { HomeSays s.now k out.old result out.new }
{
    match check_readings_inner::check_room(s, k, out.len()) {
        Err(r) => Err(r),
        Ok(()) => {
            let shift = home_shift_inner::least_shift(s);
            let period = home_shift_inner::period_of(s);
            home_turns_inner::write_turn(s, shift, out);
            Ok(Home { shift, period })
        }
    }
}

// Whether two readings are of the same ring, or refusal 1, 10, 2 or 3.
pub fn same_ring(a: &[u8], b: &[u8], k: usize) -> Result<bool, Refusal>
    ensures { ToldSays (two_readings a.now b.now k) (same_ring a.now b.now) result }
{
    match check_readings_inner::check_pair(a, b, k) {
        Err(r) => Err(r),
        Ok(()) => {
            let i = home_shift_inner::least_shift(a);
            let j = home_shift_inner::least_shift(b);
            Ok(home_turns_inner::same_turns(a, i, b, j))
        }
    }
}

// Whether some turn of the reversed reading equals the reading, or refusal 1, 2 or 3.
pub fn even_handed(s: &[u8], k: usize) -> Result<bool, Refusal>
    ensures { ToldSays (one_reading s.now k) (even_handed s.now) result }
{
    match check_readings_inner::check_reading(s, k) {
        Err(r) => Err(r),
        Ok(()) => Ok(home_handed_inner::is_even_handed(s)),
    }
}

// The smallest number of places at which a turn of one reading differs from the other, or refusal 1, 10, 2 or 3.
pub fn apart(a: &[u8], b: &[u8], k: usize) -> Result<usize, Refusal>
    ensures { DistanceSays a.now b.now k result }
{
    match check_readings_inner::check_pair(a, b, k) {
        Err(r) => Err(r),
        Ok(()) => Ok(home_nearest_inner::fewest_differing(a, b)),
    }
}

// Whether a turn of one reading differs from the other at fewer than d places, that is, whether they are less than d apart; or refusal 1, 10, 2 or 3.
pub fn nearer(a: &[u8], b: &[u8], k: usize, d: usize) -> Result<bool, Refusal>
    ensures { ToldSays (two_readings a.now b.now k) (ltb (apart a.now b.now) d) result }
{
    check_readings_inner::check_pair(a, b, k)?;
    Ok(home_nearest_inner::is_nearer(a, b, d))
}

// How far apart two readings are, and by how many left turns the first comes so near to the second, the fewest that do; or refusal 1, 10, 2 or 3.
pub fn nearest(a: &[u8], b: &[u8], k: usize) -> Result<Nearest, Refusal>
    ensures { ClosestSays a.now b.now k result }
{
    check_readings_inner::check_pair(a, b, k)?;
    let distance = home_nearest_inner::fewest_differing(a, b);
    let shift = home_nearest_inner::nearest_turn(a, b, distance);
    Ok(Nearest { distance, shift })
}

// Whether each turn of a reading but itself differs from it at d places at least, or refusal 1, 2 or 3.
pub fn steady(s: &[u8], k: usize, d: usize) -> Result<bool, Refusal>
    ensures { ToldSays (one_reading s.now k) (steady d s.now) result }
{
    check_readings_inner::check_reading(s, k)?;
    Ok(home_nearest_inner::is_steady(s, d))
}
