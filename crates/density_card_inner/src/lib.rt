// A card: whether it is good, and the level of each of its cuts. No public calls.

#![tactic(auto)]

ghost use Rattle.std.specs.Prelude.{◌≡◌, ◌≤◌};
ghost use Rattle.words.specs.Readings.{Shaded};
ghost use Rattle.density_spec.specs.Cuts.{good_card, cut};

use density_spec::Card;

// Whether 0 <= dark < light <= 1.
pub fn is_good(card: Card) -> bool
    ensures { result ≡ good_card card }
{
    card.dark >= 0.0 && card.dark < card.light && card.light <= 1.0
}

// Cut j: every operation rounded once, in the order that the client gives.
pub fn cut_level(card: Card, k: u8, j: u8) -> f32
    requires { Shaded k × (1 ≤ j) × (j ≤ 16) }
    ensures { result ≡ cut card k j }
{
    let up = 2 * j - 1;
    let down = 2 * k - 2;
    card.dark + ((card.light - card.dark) * (up as f32)) / (down as f32)
}
