// The class in a walk's record: whether a ring is a prenecklace of this class, and the sector to look at where it is not. No public calls.

#![tactic(auto)]

ghost use Rattle.std.specs.Prelude.{◌≤◌, take};
ghost use Rattle.walk_class_inner.specs.Looked.{LookedAt};

use refusal::Refusal;
use rings::Class;

// Whether the first n sectors are a prenecklace of this class. The sector to look at is theirs, whatever class is claimed for them.
pub fn on_walk(ring: [u8; 64], n: usize, class: Class) -> Result<(), Refusal>
    requires { n ≤ 64 }
    ensures { LookedAt (take n ring) class result }
{
    let found = classify_inner::class_of(&ring[..n]);
    if let Class::Loose(at) = found {
        return Err(Refusal::OffWalk(at));
    }
    if class != found {
        return Err(Refusal::OffWalk(0));
    }
    Ok(())
}
