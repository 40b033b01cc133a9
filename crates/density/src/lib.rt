// From reflectances to shades, by a reference card (02, i).

#![tactic(auto)]

ghost use Rattle.refusal.specs.Order.{CheckSays};
ghost use Rattle.density_spec.specs.Order.{sector_order};
ghost use Rattle.density_spec.specs.Says.{SectorSays, RingSays};

use density_spec::{Card, Sector};
use refusal::Refusal;
use rings::{FEWEST_SHADES, MOST_SECTORS, MOST_SHADES};

// What both calls ask of the shades and of the card: 2, 14.
fn check_card(k: usize, card: Card) -> Result<(), Refusal>
    ensures { CheckSays (sector_order k card) result }
{
    if k < FEWEST_SHADES {
        return Err(Refusal::Shades(0));
    }
    if MOST_SHADES < k {
        return Err(Refusal::Shades(0));
    }
    if !density_card_inner::is_good(card) {
        return Err(Refusal::Card);
    }
    Ok(())
}

// What one sector's reflectance tells, or refusal 2 or 14.
pub fn sector_shade(value: f32, k: usize, card: Card) -> Result<Sector, Refusal>
    ensures { SectorSays value k card result }
{
    check_card(k, card)?;
    Ok(density_cuts_inner::read(card, k as u8, value))
}

// Writes the shade of each of a ring's sectors, or gives refusal 1, 2, 14, 4 or 15 and writes nothing.
pub fn ring_shades(values: &[f32], k: usize, card: Card, out: &mut [u8]) -> Result<(), Refusal>
    ensures { RingSays values.now k card out.old result out.new }
{
    let n = values.len();
    if n < 1 {
        return Err(Refusal::Length(0));
    }
    if MOST_SECTORS < n {
        return Err(Refusal::Length(0));
    }
    check_card(k, card)?;
    if out.len() != n {
        return Err(Refusal::Room);
    }
    let shades = k as u8;
    if let Some(at) = density_ring_inner::first_unreadable(values, shades, card) {
        return Err(Refusal::Unreadable(at));
    }
    density_ring_inner::write_shades(values, shades, card, out);
    Ok(())
}
