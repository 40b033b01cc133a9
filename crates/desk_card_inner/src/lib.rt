// The shade of one value, or the ring of several, by the card that stands in front of them, and what it prints. No public calls.

#![tactic(auto)]

ghost use Rattle.std.specs.Prelude.{◌+◌, ◌<◌, ◌≤◌, ◌≡◌, length, drop};
ghost use Rattle.stream_spec.specs.Blocks.{Puts};
ghost use Rattle.desk_spec.specs.Answers.{ShadesSays, blank};
ghost use Rattle.desk_texts_inner.specs.Says.{desk_room, longest_ring, Answered};

use density_spec::Card;
use refusal::Refusal;

// One value behind the card, the line of a refusal left out.
fn one_asked(k: usize, xs: &[f32], buf: &mut [u8], at: usize) -> Result<usize, Refusal>
    requires xs_len { length xs.now ≡ 3 }
    requires desk_room_in_bounds { at + desk_room ≤ length buf.old }
    ensures { Answered (ShadesSays k xs.now) buf.old at result buf.new }
{
    let card = Card {
        dark: xs[0],
        light: xs[1],
    };
    let a = density::sector_shade(xs[2], k, card)?;
    Ok(desk_sector_inner::place_sector(buf, at, a))
}

// One value behind the card.
pub fn answer_one(k: usize, xs: &[f32], buf: &mut [u8], at: usize) -> usize
    requires xs_len { length xs.now ≡ 3 }
    requires desk_room_in_bounds { at + desk_room ≤ length buf.old }
    ensures { Puts (ShadesSays k xs.now) desk_room buf.old at result buf.new }
{
    let said = one_asked(k, xs, buf, at);
    desk_texts_inner::place_said(buf, at, said)
}

// Several, the line of a refusal left out.
fn ring_asked(
    k: usize,
    xs: &[f32],
    out: &mut [u8],
    buf: &mut [u8],
    at: usize,
) -> Result<usize, Refusal>
    requires in_bounds { 3 < length xs.now }
    requires out_len_bound { length out.old ≤ longest_ring }
    requires out_value { out.old ≡ blank (length (drop 2 xs.now)) }
    requires desk_room_in_bounds { at + desk_room ≤ length buf.old }
    ensures { Answered (ShadesSays k xs.now) buf.old at result buf.new }
{
    let card = Card {
        dark: xs[0],
        light: xs[1],
    };
    density::ring_shades(&xs[2..], k, card, out)?;
    Ok(desk_texts_inner::place_ring(buf, at, out))
}

// Several.
pub fn answer_ring(k: usize, xs: &[f32], out: &mut [u8], buf: &mut [u8], at: usize) -> usize
    requires in_bounds { 3 < length xs.now }
    requires out_len_bound { length out.old ≤ longest_ring }
    requires out_value { out.old ≡ blank (length (drop 2 xs.now)) }
    requires desk_room_in_bounds { at + desk_room ≤ length buf.old }
    ensures { Puts (ShadesSays k xs.now) desk_room buf.old at result buf.new }
{
    let said = ring_asked(k, xs, out, buf, at);
    desk_texts_inner::place_said(buf, at, said)
}
