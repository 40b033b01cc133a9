// The set for numbers that passed the checks, by either rule (02, g): the Lyndon words of a walk, offered in order. No public calls: crate `sets` has the calls.

#![tactic(auto)]

ghost use Rattle.set_pick_spec.specs.Order.{Askable};
ghost use Rattle.set_pick_spec.specs.Says.{SetSays};
ghost use Rattle.guard_spec.specs.Choice.{chosen_by};

use guard_spec::Rule;
use set_pick_spec::Picked;
use walk_spec::Outcome;

// The set: from the all-zero ring on each Lyndon word is offered, until enough are taken or there are none left.
pub fn choose(rule: Rule, n: usize, k: usize, d: usize, wanted: usize) -> Picked
    requires { Askable n k d wanted }
    ensures { SetSays n k d wanted (chosen_by rule n k d wanted) result }
{
    let zeros = [0u8; 64];
    let started = walk::start(&zeros[..n], k);
    let mut w = started.walk;
    let mut places = [0u8; 768];
    let mut tallies = [0u8; 512];
    let mut taken = set_words_inner::zero_taken(rule, n);
    tallies[0] = taken as u8;
    while taken < wanted {
        let stepped = set_words_inner::next_word(w);
        let Ok(Outcome::Moved(_)) = stepped.outcome else {
            return Picked {
                places,
                taken,
                full: false,
                answer: Ok(()),
            };
        };
        w = stepped.walk;
        taken = set_places_inner::offer(
            rule,
            &mut places,
            &mut tallies,
            taken,
            &w.ring[..n],
            &w.counts,
            k,
            d,
        );
    }
    Picked {
        places,
        taken,
        full: true,
        answer: Ok(()),
    }
}
