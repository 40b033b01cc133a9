// Which ring of a set is seen, exported under a plain C name (`include/rings.h`): it promises the form in numbers of an answer that the call promises (`Flat` of `door_spec`).

#![tactic(auto)]

ghost use Rattle.std.specs.Prelude.{◌≡◌};
ghost use Rattle.sight_spec.specs.Says.{SightSays};
ghost use Rattle.door_spec.specs.Flat.{Flat, sighted, flat_sighting};

use door_spec::RingsSighting;
use refusal::Refusal;
use sight_spec::Sighting;

fn flat_one(kind: usize, target: usize, shift: usize, misread: usize) -> RingsSighting
    ensures { result ≡ sighted kind target shift misread }
{
    RingsSighting {
        refused: 0,
        place: 0,
        kind,
        target,
        shift,
        misread,
    }
}

fn flat_sighting(a: Result<Sighting, Refusal>) -> RingsSighting
    ensures { result ≡ flat_sighting a }
{
    match a {
        Ok(
            Sighting::Front {
                target,
                shift,
                misread,
            },
        ) => flat_one(1, target, shift, misread),
        Ok(
            Sighting::Back {
                target,
                shift,
                misread,
            },
        ) => flat_one(2, target, shift, misread),
        Ok(Sighting::Several) => flat_one(3, 0, 0, 0),
        Ok(Sighting::Unknown) => flat_one(0, 0, 0, 0),
        Err(r) => RingsSighting {
            refused: refusal::number(r),
            place: refusal::place(r),
            kind: 0,
            target: 0,
            shift: 0,
            misread: 0,
        },
    }
}

#[unsafe(no_mangle)]
pub extern "C" fn rings_sight(rings: &[u8], reading: &[u8], k: usize, most: usize) -> RingsSighting
    ensures { Flat (SightSays rings.now reading.now k most) flat_sighting result }
{
    flat_sighting(sight::sight(rings, reading, k, most))
}
