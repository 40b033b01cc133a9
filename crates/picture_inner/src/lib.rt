// The picture of a target as SVG text, placed into a lent buffer. No public calls.

#![tactic(auto)]

ghost use Rattle.std.specs.Prelude.{◌+◌, ◌≤◌, ◌<◌, length};
ghost use Rattle.refusal.specs.Calls.{Below};
ghost use Rattle.text_form_inner.specs.Fits.{Fits};
ghost use Rattle.picture_spec.specs.Text.{head_text, tail_text, picture_text};

use picture_spec::Tone;

// Its beginning.
fn place_head(buf: &mut [u8], at: usize, n: usize) -> usize
    requires n_bound { n ≤ 64 }
    requires at_in_bounds { at + 320 ≤ length buf.old }
    ensures { Fits 320 buf.old at (head_text n) result buf.new }
{
    let half = 138 * n;
    let whole = 276 * n;
    text_form_inner::place_form(
        buf,
        at,
        b"<svg xmlns=\"http://www.w3.org/2000/svg\" width=\"24mm\" height=\"24mm\" viewBox=\"-% -% % %\">\n<g fill=\"none\" stroke-width=\"%\" transform=\"rotate(-90)\">\n",
        &[half, half, whole, whole, 50 * n],
        0,
        b"",
    )
}

// The end of the ring, and the dot.
pub fn place_tail(buf: &mut [u8], at: usize, n: usize) -> usize
    requires n_bound { n ≤ 64 }
    requires at_in_bounds { at + 64 ≤ length buf.old }
    ensures { Fits 64 buf.old at (tail_text n) result buf.new }
{
    text_form_inner::place_form(
        buf,
        at,
        b"</g>\n<circle r=\"%\"/>\n</svg>\n",
        &[38 * n],
        0,
        b"",
    )
}

// The whole picture.
pub fn place_picture(buf: &mut [u8], at: usize, ring: &[u8], k: usize, tone: Tone) -> usize
    requires le_k { (2 ≤ k) × (k ≤ 16) × (0 < length ring.now) × (length ring.now ≤ 64) }
    requires below { Below ring.now (λ i. k) }
    requires at_in_bounds { at + 16768 ≤ length buf.old }
    ensures { Fits 16768 buf.old at (picture_text tone k ring.now) result buf.new }
{
    let n = ring.len();
    let a = place_head(buf, at, n);
    let b = picture_ring_inner::place_ring(buf, a, ring, k, tone);
    place_tail(buf, b, n)
}
