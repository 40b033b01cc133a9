// What one reflectance tells, by the cuts of a card. No public calls: the shades and the card are checked before, once.

#![tactic(auto)]

ghost use Rattle.std.specs.Prelude.{◌≡◌};
ghost use Rattle.words.specs.Readings.{Shaded};
ghost use Rattle.density_spec.specs.Cuts.{shade_of};
ghost use Rattle.density_spec.specs.Says.{ShadeSays};

use density_spec::{Card, Sector};

// The number of cuts not above x.
pub fn cuts_not_above(card: Card, k: u8, x: f32) -> u8
    requires { Shaded k }
    ensures { result ≡ shade_of card k x }
{
    let mut shade = 0;
    for j in 1..k {
        let level = density_card_inner::cut_level(card, k, j);
        if level <= x {
            shade += 1;
        }
    }
    shade
}

// The shade of x, or x itself where it lies below 0 or above 1, or that it is not a number.
pub fn read(card: Card, k: u8, x: f32) -> Sector
    requires { Shaded k }
    ensures { ShadeSays card k x result }
{
    if x != x {
        return Sector::NotANumber;
    }
    if x < 0.0 || 1.0 < x {
        return Sector::Outside(x);
    }
    Sector::Shade(cuts_not_above(card, k, x))
}
