// The calls by reflectances, exported under plain C names (`include/rings.h`): each promises the form in numbers of an answer that the call promises (`Flat` of `door_spec`).

#![tactic(auto)]

ghost use Rattle.std.specs.Prelude.{◌≡◌};
ghost use Rattle.density_spec.specs.Says.{SectorSays, RingSays};
ghost use Rattle.door_spec.specs.Flat.{Flat, card_of, flat_sector, flat_sector_read, flat_ring_read};

use density_spec::{Card, Sector};
use door_spec::{RingsAnswer, RingsSector};
use refusal::Refusal;

fn flat_sector(s: Sector) -> RingsSector
    ensures { result ≡ flat_sector s }
{
    match s {
        Sector::Shade(x) => RingsSector {
            refused: 0,
            place: 0,
            kind: 1,
            shade: usize::from(x),
            outside: 0.0,
        },
        Sector::Outside(x) => RingsSector {
            refused: 0,
            place: 0,
            kind: 2,
            shade: 0,
            outside: x,
        },
        Sector::NotANumber => RingsSector {
            refused: 0,
            place: 0,
            kind: 3,
            shade: 0,
            outside: 0.0,
        },
    }
}

fn flat_sector_read(a: Result<Sector, Refusal>) -> RingsSector
    ensures { result ≡ flat_sector_read a }
{
    match a {
        Ok(s) => flat_sector(s),
        Err(r) => RingsSector {
            refused: refusal::number(r),
            place: refusal::place(r),
            kind: 0,
            shade: 0,
            outside: 0.0,
        },
    }
}

#[unsafe(no_mangle)]
pub extern "C" fn rings_sector_shade(
    reflectance: f32,
    k: usize,
    dark: f32,
    light: f32,
) -> RingsSector
    ensures { Flat (SectorSays reflectance k (card_of dark light)) flat_sector_read result }
{
    let card = Card { dark, light };
    flat_sector_read(density::sector_shade(reflectance, k, card))
}

#[unsafe(no_mangle)]
pub extern "C" fn rings_ring_shades(
    reflectances: &[f32],
    k: usize,
    dark: f32,
    light: f32,
    out: &mut [u8],
) -> RingsAnswer
    ensures { Flat (λ a. RingSays reflectances.now k (card_of dark light) out.old a out.new) flat_ring_read result }
{
    let card = Card { dark, light };
    door_answer_inner::done(density::ring_shades(reflectances, k, card, out))
}
