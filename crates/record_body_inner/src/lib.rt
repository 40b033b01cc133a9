// The sectors of a record, whose numbers are good: what they are, and in a front record the refusals 3 and 9. No public calls.

#![tactic(auto)]

ghost use Rattle.std.specs.Prelude.{◌+◌, length};
ghost use Rattle.words.specs.Readings.{Sized, Shaded};
ghost use Rattle.record_spec.specs.declared.Kind.TheVariants.{Front};
ghost use Rattle.record_body_inner.specs.Steps.{Held, BodySays};
ghost use Rattle.record_body_inner.specs.Looks.{LookSays};

use record_spec::HEAD;
use refusal::Refusal;

// What sectors are: home; or else which one is the first that is no shade, or, where all are, which one to look at.
#[derive(Clone, Copy)]
pub enum Looked {
    Home,
    NoShade(usize),
    NotHome(usize),
}

// With good n and k, classifying can only refuse a sector.
pub fn look(sectors: &[u8], k: usize) -> Looked
    requires { Sized (length sectors.now) × Shaded k }
    ensures { LookSays sectors.now k result }
{
    match classify::classify(sectors, k) {
        Err(r) => Looked::NoShade(refusal::place(r)),
        Ok(c) if classify_inner::is_necklace(c) => Looked::Home,
        Ok(c) => Looked::NotHome(classify_inner::loose_place(c)),
    }
}

// The sectors of a front record, a byte each: 3, 9.
pub fn check_body(body: &[u8], start: usize, k: usize) -> Result<(), Refusal>
    requires { Held (start + (4 + length body.now)) × Sized (length body.now) × Shaded k }
    ensures { BodySays Front (length body.now) k body.now start result }
{
    match look(body, k) {
        Looked::Home => Ok(()),
        Looked::NoShade(i) => Err(Refusal::Sector(start + HEAD + i)),
        Looked::NotHome(i) => Err(Refusal::NotHome(start + HEAD + i)),
    }
}
