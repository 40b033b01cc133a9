// The strip along the frame (02, request l): writing it, and telling the place of n neighbouring sectors.

#![tactic(auto)]

ghost use Rattle.std.specs.Prelude.{◌^◌, ◌≡◌, length};
ghost use Rattle.refusal.specs.Calls.{one_reading};
ghost use Rattle.refusal.specs.Order.{Passed};
ghost use Rattle.limits_spec.specs.Limits.{Listable};
ghost use Rattle.strip_spec.specs.Strip.{strip};
ghost use Rattle.strip_spec.specs.Places.{OnePlace};
ghost use Rattle.strip_spec.specs.Says.{StripSays, PlaceSays};

use refusal::Refusal;

// No strip has more sectors.
const MOST: usize = 4096;

// The numbers passed 1, 2, 12: 4, and then the strip.
fn write_listable(n: usize, k: usize, out: &mut [u8]) -> Result<(), Refusal>
    requires { Listable 4096 k n }
    ensures { StripSays n k out.old result out.new }
{
    if out.len() != how_many_power_inner::power(k, n) {
        return Err(Refusal::Room);
    }
    strip_write_inner::write_whole(n, k, out);
    Ok(())
}

// The strip of n and k in the output, which has k to the power n bytes; or refusal 1, 2, 12 or 4.
pub fn write_strip(n: usize, k: usize, out: &mut [u8]) -> Result<(), Refusal>
    ensures { StripSays n k out.old result out.new }
{
    limits::plan_numbers(k, n, MOST)?;
    write_listable(n, k, out)
}

// The place of the reading on its strip, which is written into the lent bytes first.
fn place_on(reading: &[u8], k: usize, sectors: &mut [u8]) -> usize
    requires passed { Passed (one_reading reading.now k) }
    requires listable { Listable 4096 k (length reading.now) }
    requires sectors_len { length sectors.old ≡ k ^ length reading.now }
    ensures { OnePlace (strip (length reading.now) k) reading.now result }
{
    strip_write_inner::write_whole(reading.len(), k, sectors);
    strip_place_inner::place_in(sectors, reading)
}

// The reading passed 1, 2, 3: 12, and then the place.
fn place_good(reading: &[u8], k: usize) -> Result<usize, Refusal>
    requires { Passed (one_reading reading.now k) }
    ensures { PlaceSays reading.now k result }
{
    let n = reading.len();
    if limits::power_above(k, n, MOST) {
        return Err(Refusal::TooMany);
    }
    let m = how_many_power_inner::power(k, n);
    let mut sectors = [0u8; 4096];
    Ok(place_on(reading, k, &mut sectors[..m]))
}

// The one place of the strip of n and k at which the reading stands; or refusal 1, 2, 3 or 12.
pub fn place_of(reading: &[u8], k: usize) -> Result<usize, Refusal>
    ensures { PlaceSays reading.now k result }
{
    check_readings_inner::check_reading(reading, k)?;
    place_good(reading, k)
}
