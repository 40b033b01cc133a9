// The checks of a walk's record: 1, 2, 3, 5. No public calls.

#![tactic(auto)]

ghost use Rattle.std.specs.Prelude.{true};
ghost use Rattle.refusal.specs.Order.{CheckSays};
ghost use Rattle.refusal.specs.Calls.{walk_record};
ghost use Rattle.walk_spec.specs.Record.{walk_asked};

use refusal::Refusal;
use rings::MOST_SECTORS;
use walk_spec::Walk;

// ---- its sectors

// A walk's record: 1, 2, 3, where the sectors past n are 0.
pub fn check_ring(n: usize, k: usize, ring: [u8; 64]) -> Result<(), Refusal>
    ensures { CheckSays (walk_record n k ring true) result }
{
    check_numbers_inner::check_numbers(n, n, k)?;
    let at = check_numbers_inner::first_bad(&ring[..n], k);
    if at < n {
        return Err(Refusal::Sector(at));
    }
    let past = check_numbers_inner::first_bad(&ring[n..], 1);
    if past < MOST_SECTORS - n {
        return Err(Refusal::Sector(n + past));
    }
    Ok(())
}

// ---- all of it

pub fn check_walk(w: Walk) -> Result<(), Refusal>
    ensures { CheckSays (walk_asked w) result }
{
    check_ring(w.n, w.k, w.ring)?;
    walk_class_inner::on_walk(w.ring, w.n, w.class)?;
    let own = walk_counts_inner::counts_of(w.ring, w.n);
    if walk_counts_inner::same_counts(w.counts, own) {
        Ok(())
    } else {
        Err(Refusal::OffWalk(0))
    }
}
