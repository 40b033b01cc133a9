// What is told of a reading among rings whose lengths were compared with its own. No public calls.

#![tactic(auto)]

ghost use Rattle.desk_sight_lengths_inner.specs.Says.{TellSays};

use refusal::Refusal;
use rings::MOST_SECTORS;
use sight_spec::Sighting;

// What is seen where each ring is as long as the reading, and else which refusal the lengths give.
pub fn tell(
    rings: &[u8],
    reading: &[u8],
    alike: bool,
    k: usize,
    most: usize,
) -> Result<Sighting, Refusal>
    ensures { TellSays rings.now reading.now k most alike result }
{
    if alike {
        return sight::sight(rings, reading, k, most);
    }
    if reading.len() < 1 {
        return Err(Refusal::Length(0));
    }
    if MOST_SECTORS < reading.len() {
        return Err(Refusal::Length(0));
    }
    Err(Refusal::Pair)
}
