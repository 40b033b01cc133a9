// The checks of a target set's numbers (02, g): 1, 2, 12, 13. No public calls: crate `sets` makes them.

#![tactic(auto)]

ghost use Rattle.set_pick_spec.specs.Order.{SetCheckSays};
ghost use Rattle.set_checks_inner.specs.Says.{SettableSays};

use limits::MOST_LISTED;
use refusal::Refusal;

// A ring of a set has at most 24 sectors: a place has room for no more.
const PLACE_SECTORS: usize = 24;

// There are 32 places.
const MOST_WANTED: usize = 32;

// The distance and the wanted number: 13.
fn check_distance(n: usize, d: usize, wanted: usize) -> Result<(), Refusal>
    ensures { SettableSays n d wanted result }
{
    if d < 1 || n < d || wanted < 1 || MOST_WANTED < wanted {
        return Err(Refusal::Set);
    }
    Ok(())
}

// All of them, in their order: 1, 2, 12, as in a plan, but that n is at most 24; then 13.
pub fn check_set(n: usize, k: usize, d: usize, wanted: usize) -> Result<(), Refusal>
    ensures { SetCheckSays n k d wanted result }
{
    if PLACE_SECTORS < n {
        return Err(Refusal::Length(0));
    }
    limits::plan_numbers(k, n, MOST_LISTED)?;
    check_distance(n, d, wanted)
}
