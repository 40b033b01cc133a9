// Which ring of a set a reading shows, and from which side.

#![tactic(auto)]

ghost use Rattle.sight_spec.specs.Says.{SightSays};

use refusal::Refusal;
pub use sight_spec::Sighting;

// Of the rings, which lie end to end with as many sectors each as the reading, the one that is at most `most` apart from it, seen from the front or from behind; or that there are
// several, or none; or refusal 1, 10, 2 or 3.
pub fn sight(rings: &[u8], reading: &[u8], k: usize, most: usize) -> Result<Sighting, Refusal>
    ensures { SightSays rings.now reading.now k most result }
{
    sight_checks_inner::check_rings(rings, reading, k)?;
    Ok(sight_inner::look(rings, reading, most))
}
