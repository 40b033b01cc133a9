// A ring's reflectances, sector by sector: the first that has no shade, and all their shades written. No public calls: the numbers and the card are checked before.

#![tactic(auto)]

ghost use Rattle.std.specs.Prelude.{◌≡◌, map, length, MatchOption};
ghost use Rattle.words.specs.Readings.{Shaded};
ghost use Rattle.density_spec.specs.Cuts.{shade_of};
ghost use Rattle.density_ring_inner.specs.Scan.{Readable, FirstBare};

use density_spec::{Card, Sector};

// The first place whose value has no shade.
pub fn first_unreadable(values: &[f32], k: u8, card: Card) -> Option<usize>
    requires { Shaded k }
    ensures { MatchOption result (Readable values.now) (FirstBare values.now) }
{
    values.iter().position(|&x| !matches!(density_cuts_inner::read(card, k, x), Sector::Shade(_)))
}

// Writes the shade of each value.
pub fn write_shades(values: &[f32], k: u8, card: Card, out: &mut [u8])
    requires { Shaded k × (length out.old ≡ length values.now) }
    ensures { out.new ≡ map (shade_of card k) values.now }
{
    for (i, &x) in values.iter().enumerate() {
        out[i] = density_cuts_inner::cuts_not_above(card, k, x);
    }
}
