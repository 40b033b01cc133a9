// The ring of a target as SVG text, placed into a lent buffer. No public calls.

#![tactic(auto)]

ghost use Rattle.std.specs.Prelude.{◌+◌, ◌*◌, ◌≤◌, ◌<◌, ◌≡◌, length, drop};
ghost use Rattle.refusal.specs.Calls.{Below};
ghost use Rattle.text_form_inner.specs.Fits.{Fits};
ghost use Rattle.picture_spec.specs.Arcs.{arcs_from};
ghost use Rattle.picture_spec.specs.Text.{with_numbers, arc_form, arc_numbers, arc_texts, ring_picture, head_text, tail_text, picture_text};
ghost use Rattle.picture_ring_inner.specs.Parts.{RunAt, sector_arcs};

use picture_spec::Tone;

// How many sectors from place i on have the shade of the sector there.
fn run_at(ring: &[u8], i: usize) -> usize
    requires { i < length ring.now }
    ensures { RunAt ring.now i result }
{
    let s = ring[i];
    ring[i..].iter().take_while(|&&x| x == s).count()
}

// An arc of d sectors from place i on, in the gray g.
fn place_arc(buf: &mut [u8], at: usize, n: usize, i: usize, d: usize, g: usize) -> usize
    requires n_nonzero { (0 < n) × (n ≤ 64) × (d ≤ n) }
    requires at_in_bounds { at + 256 ≤ length buf.old }
    ensures { Fits 256 buf.old at (with_numbers arc_form (arc_numbers n i d g)) result buf.new }
{
    let turn = 710 * n;
    let long = 710 * d;
    let rest = 710 * (n - d);
    let from = 710 * (i % n);
    text_form_inner::place_form(
        buf,
        at,
        b"<circle r=\"%\" pathLength=\"%\" stroke-dasharray=\"% %\" stroke-dashoffset=\"-%\" stroke=\"rgb(%,%,%)\"/>\n",
        &[113 * n, turn, long, rest, from, g, g, g],
        0,
        b"",
    )
}

// The arc that sector i of a turned ring begins, if it begins one. The ring is turned by o, and `before` is the shade before the sector.
fn place_sector(
    buf: &mut [u8],
    at: usize,
    ring: &[u8],
    i: usize,
    before: u8,
    o: usize,
    k: usize,
    tone: Tone,
) -> usize
    requires le_k { (2 ≤ k) × (k ≤ 16) × (length ring.now ≤ 64) × (o ≤ length ring.now) × (i < length ring.now) }
    requires below { Below ring.now (λ i. k) }
    requires at_in_bounds { at + 256 ≤ length buf.old }
    ensures { Fits 256 buf.old at (arc_texts tone (length ring.now) k (sector_arcs before (o + i) (drop i ring.now))) result buf.new }
{
    let s = ring[i];
    if s == before {
        return at;
    }
    let d = run_at(ring, i);
    let g = picture_gray_inner::gray_of(tone, k, s);
    place_arc(buf, at, ring.len(), o + i, d, g)
}

// The arcs of a ring that is turned by o, to the end of its first run.
fn place_arcs(buf: &mut [u8], at: usize, ring: &[u8], o: usize, k: usize, tone: Tone) -> usize
    requires le_k { (2 ≤ k) × (k ≤ 16) × (length ring.now ≤ 64) × (o ≤ length ring.now) }
    requires below { Below ring.now (λ i. k) }
    requires at_in_bounds { at + 16384 ≤ length buf.old }
    ensures { Fits 16384 buf.old at (arc_texts tone (length ring.now) k (arcs_from 16 o ring.now)) result buf.new }
{
    let mut p = at;
    let mut before = 16u8;
    for (i, &s) in ring.iter().enumerate() {
        p = place_sector(buf, p, ring, i, before, o, k, tone);
        before = s;
    }
    p
}

// All arcs of a ring.
pub fn place_ring(buf: &mut [u8], at: usize, ring: &[u8], k: usize, tone: Tone) -> usize
    requires le_k { (2 ≤ k) × (k ≤ 16) × (0 < length ring.now) × (length ring.now ≤ 64) }
    requires below { Below ring.now (λ i. k) }
    requires at_in_bounds { at + 16384 ≤ length buf.old }
    ensures { Fits 16384 buf.old at (ring_picture tone k ring.now) result buf.new }
{
    let n = ring.len();
    let o = run_at(ring, 0);
    let mut turned = [0u8; 64];
    home_turns_inner::write_turn(ring, o, &mut turned[..n]);
    place_arcs(buf, at, &turned[..n], o, k, tone)
}
