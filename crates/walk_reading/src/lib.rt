// Steps from a lent reading, which has to be a prenecklace, to the next ring in a lent output: for a caller that keeps no record of a walk. What they promise stands in
// `walk_reading_spec`.

#![tactic(auto)]

ghost use Rattle.rings.specs.Necklace.{necklace, lyndon};
ghost use Rattle.rings.specs.Prenecklace.{prenecklace};
ghost use Rattle.walk_kind_laws.specs.Kinds.{kind_of};
ghost use Rattle.walk_reading_spec.specs.Says.{StepFromSays, BraceletFromSays};

use refusal::Refusal;
use walk_bracelet_spec::Arrival;
use walk_kind_laws::Kind;
use walk_spec::Outcome;

// ---- by prenecklaces

fn step(reading: &[u8], k: usize, kind: Kind, out: &mut [u8]) -> Result<Outcome, Refusal>
    ensures { StepFromSays (kind_of kind) reading.now k out.old result out.new }
{
    walk_reading_checks_inner::check_step(reading, k, out.len())?;
    let n = reading.len();
    let mut ring = [0u8; 64];
    Ok(walk_reading_inner::step_in(reading, k, kind, &mut ring[..n], out))
}

// To the least prenecklace above the reading, in the output; or that there is none; or refusal 1, 2, 3, 4 or 5.
pub fn next_prenecklace(reading: &[u8], k: usize, out: &mut [u8]) -> Result<Outcome, Refusal>
    ensures { StepFromSays prenecklace reading.now k out.old result out.new }
{
    step(reading, k, Kind::Prenecklace, out)
}

// To the least necklace above it.
pub fn next_necklace(reading: &[u8], k: usize, out: &mut [u8]) -> Result<Outcome, Refusal>
    ensures { StepFromSays necklace reading.now k out.old result out.new }
{
    step(reading, k, Kind::Necklace, out)
}

// To the least Lyndon word above it.
pub fn next_lyndon(reading: &[u8], k: usize, out: &mut [u8]) -> Result<Outcome, Refusal>
    ensures { StepFromSays lyndon reading.now k out.old result out.new }
{
    step(reading, k, Kind::Lyndon, out)
}

// ---- one ring from each mirror pair

// To the least bracelet above the reading, in the output. It tells no moves.
pub fn next_bracelet(reading: &[u8], k: usize, out: &mut [u8]) -> Result<Arrival, Refusal>
    ensures { BraceletFromSays reading.now k out.old result out.new }
{
    walk_reading_checks_inner::check_step(reading, k, out.len())?;
    let n = reading.len();
    let mut ring = [0u8; 64];
    Ok(walk_reading_inner::bracelet_in(reading, k, &mut ring[..n], out))
}
