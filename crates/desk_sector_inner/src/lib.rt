// What the answers of the calls by reflectances print, a value outside of 0 to 1 by its bits. No public calls.

#![tactic(auto, unfolding(text_fill_spec::specs::Filled::longest, text_fill_spec::specs::Filled::slots))]

ghost use Rattle.std.specs.Prelude.{◌+◌, ◌/◌, ◌%◌, ◌<◌, ◌≤◌, ◌≡◌, false, length};
ghost use Rattle.std.specs.Float.Ieee.{ne};
ghost use Rattle.density_spec.specs.declared.Sector.TheVariants as tells;
ghost use Rattle.desk_spec.specs.Texts.{told_sector_text};
ghost use Rattle.desk_texts_inner.specs.Says.{desk_room, LinePrinted};
ghost use Rattle.desk_sector_inner.specs.Says.{OwnBits};

use density_spec::Sector;

fn digit(bits: u32, weight: u32) -> u8
    requires { 0 < weight }
    ensures { result ≡ bits / weight % 16 }
{
    (bits / weight % 16) as u8
}

// The line of a value outside of 0 to 1.
fn place_outside(buf: &mut [u8], at: usize, x: f32) -> usize
    requires x_value { ne x x ≡ false }
    requires desk_room_in_bounds { at + desk_room ≤ length buf.old }
    ensures { LinePrinted buf.old at (told_sector_text (tells.Outside x)) result buf.new }
{
    let b = x.to_bits();
    let digits = [
        digit(b, 0x1000_0000),
        digit(b, 0x0100_0000),
        digit(b, 0x0010_0000),
        digit(b, 0x0001_0000),
        digit(b, 0x1000),
        digit(b, 0x0100),
        digit(b, 0x0010),
        digit(b, 1),
    ];
    desk_texts_inner::place_ring_line(buf, at, b"outside @\n", &digits)
}

pub fn place_sector(buf: &mut [u8], at: usize, a: Sector) -> usize
    requires own_bits { OwnBits a }
    requires desk_room_in_bounds { at + desk_room ≤ length buf.old }
    ensures { LinePrinted buf.old at (told_sector_text a) result buf.new }
{
    match a {
        Sector::Shade(s) => desk_texts_inner::place_number(buf, at, b"shade %\n", usize::from(s)),
        Sector::Outside(x) => place_outside(buf, at, x),
        Sector::NotANumber => desk_texts_inner::place_words(buf, at, b"not a number\n"),
    }
}
