// The words that a set is chosen from (02, g): whether the all-zero ring is one that is taken, and the next. No public calls.

#![tactic(auto)]

ghost use Rattle.std.specs.Prelude.{◌≡◌};
ghost use Rattle.rings.specs.Necklace.{lyndon};
ghost use Rattle.walk_spec.specs.Says.{StepSays};
ghost use Rattle.set_words_inner.specs.Says.{zero_taken};

use guard_spec::Rule;
use walk_spec::{Stepped, Walk};

// The all-zero ring is a Lyndon word only where n is 1, and the walk does not come to it; it is even-handed, and so in no guarded set. Its place holds 0 already, and its
// tally is one of shade 0.
pub fn zero_taken(rule: Rule, n: usize) -> usize
    ensures { result ≡ zero_taken rule n }
{
    match rule {
        Rule::Guarded => 0,
        Rule::Plain => usize::from(n == 1),
    }
}

// The next word to look at.
pub fn next_word(w: Walk) -> Stepped
    ensures { StepSays lyndon w result.walk result.outcome }
{
    walk::next_lyndon(w)
}
