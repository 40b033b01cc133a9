// The checks of a whole old catalogue, record by record from its front. No public calls.

#![tactic(auto)]

ghost use Rattle.converter_spec.specs.Converts.{SoundSays};

use record_spec::HEAD;
use refusal::Refusal;

// The first record that is not good, refused as the old reader refused it; or that there is none.
pub fn check_all(old: &[u8]) -> Result<(), Refusal>
    ensures { SoundSays old.now result }
{
    // by hand: where the next record begins is told by the record itself, so no range and no iterator gives the places
    let mut at = 0;
    while at < old.len() {
        converter_check_inner::check_old(&old[at..], at)?;
        at += HEAD + usize::from(old[at + 2]);
    }
    Ok(())
}
