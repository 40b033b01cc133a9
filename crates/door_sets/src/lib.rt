// Target sets, exported under plain C names (`include/rings.h`): each call promises the form in numbers of an answer that is promised (`Flat` of `door_spec`).

#![tactic(auto)]

ghost use Rattle.std.specs.Prelude.{◌≡◌, length};
ghost use Rattle.set_spec.specs.Greedy.{picked};
ghost use Rattle.guard_spec.specs.Choice.{guarded, chosen_by};
ghost use Rattle.door_spec.specs.Flat.{Flat, flat_laid};
ghost use Rattle.door_spec.specs.Sets.{LaidSays, Lays};

use door_spec::{Laid, RingsSet};
use guard_spec::Rule;
use refusal::Refusal;
use set_pick_spec::Picked;

// The bytes of 32 places of 24 sectors.
const PLACES: usize = 768;

fn flat_laid(a: Result<Laid, Refusal>) -> RingsSet
    ensures { result ≡ flat_laid a }
{
    match a {
        Ok(Laid { taken, full }) => RingsSet {
            refused: 0,
            place: 0,
            taken,
            full: usize::from(full),
        },
        Err(r) => RingsSet {
            refused: refusal::number(r),
            place: refusal::place(r),
            taken: 0,
            full: 0,
        },
    }
}

// What was picked, laid into an output of its length where it is no refusal.
fn lay(set: Picked, out: &mut [u8]) -> Result<Laid, Refusal>
    requires { length out.old ≡ 768 }
    ensures { Lays set out.old result out.new }
{
    set.answer?;
    out.copy_from_slice(&set.places);
    Ok(Laid {
        taken: set.taken,
        full: set.full,
    })
}

// The set of a rule, laid into the output.
fn lay_by(
    rule: Rule,
    n: usize,
    k: usize,
    d: usize,
    wanted: usize,
    out: &mut [u8],
) -> Result<Laid, Refusal>
    ensures { LaidSays n k d wanted (chosen_by rule n k d wanted) out.old result out.new }
{
    if out.len() != PLACES {
        return Err(Refusal::Room);
    }
    lay(sets::pick_by(rule, n, k, d, wanted), out)
}

// ---- the set of a job

#[unsafe(no_mangle)]
pub extern "C" fn rings_pick(
    n: usize,
    k: usize,
    d: usize,
    wanted: usize,
    out: &mut [u8],
) -> RingsSet
    ensures { Flat (λ a. LaidSays n k d wanted (picked n k d wanted) out.old a out.new) flat_laid result }
{
    flat_laid(lay_by(Rule::Plain, n, k, d, wanted, out))
}

// ---- the guarded set

#[unsafe(no_mangle)]
pub extern "C" fn rings_pick_guarded(
    n: usize,
    k: usize,
    d: usize,
    wanted: usize,
    out: &mut [u8],
) -> RingsSet
    ensures { Flat (λ a. LaidSays n k d wanted (guarded n k d wanted) out.old a out.new) flat_laid result }
{
    flat_laid(lay_by(Rule::Guarded, n, k, d, wanted, out))
}
