// Target sets for one job (02, g), plain and guarded.

#![tactic(auto)]

ghost use Rattle.set_pick_spec.specs.Says.{SetSays, PickSays, GuardSays};
ghost use Rattle.guard_spec.specs.Choice.{chosen_by};
ghost use Rattle.set_layout_spec.specs.Layout.{LayoutSays};

pub use guard_spec::Rule;
use refusal::Refusal;
pub use set_pick_spec::Picked;

// The set of a rule, plain or guarded, or refusal 1, 2, 12 or 13, with all 0 and not full.
pub fn pick_by(rule: Rule, n: usize, k: usize, d: usize, wanted: usize) -> Picked
    ensures { SetSays n k d wanted (chosen_by rule n k d wanted) result }
{
    if let Err(r) = set_checks_inner::check_set(n, k, d, wanted) {
        return Picked {
            places: [0; 768],
            taken: 0,
            full: false,
            answer: Err(r),
        };
    }
    set_choose_inner::choose(rule, n, k, d, wanted)
}

// The set for n, k, a distance d and a wanted number: Lyndon words in order, each at least d apart from all taken before. Or refusal 1, 2, 12 or 13, with all 0 and
// not full.
pub fn pick(n: usize, k: usize, d: usize, wanted: usize) -> Picked
    ensures { PickSays n k d wanted result }
{
    pick_by(Rule::Plain, n, k, d, wanted)
}

// The guarded set: Lyndon words in order, each with which the rings taken and their mirror images stay at least d apart from one another, and each ring from its own
// turns. Or the same refusals.
pub fn pick_guarded(n: usize, k: usize, d: usize, wanted: usize) -> Picked
    ensures { GuardSays n k d wanted result }
{
    pick_by(Rule::Guarded, n, k, d, wanted)
}

// Writes the rings of a set one after another, n sectors each, as `sight` takes them; or refusal 1, 13 (it cannot have taken so many) or 4, with nothing written.
pub fn lay_out(p: Picked, n: usize, out: &mut [u8]) -> Result<(), Refusal>
    ensures { LayoutSays n p.places p.taken out.old result out.new }
{
    if n < 1 || 24 < n {
        return Err(Refusal::Length(0));
    }
    if 32 < p.taken {
        return Err(Refusal::Set);
    }
    if out.len() != n * p.taken {
        return Err(Refusal::Room);
    }
    set_layout_inner::write_rings(&p.places, n, p.taken, out);
    Ok(())
}
