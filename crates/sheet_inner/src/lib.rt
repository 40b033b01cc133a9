// A target of a sheet as SVG text, placed into a lent buffer. No public calls.

#![tactic(auto)]

ghost use Rattle.std.specs.Prelude.{◌+◌, ◌≤◌, ◌<◌, ◌≡◌, ◌||◌, ◌%◌, eqb, length};
ghost use Rattle.rings.specs.Home.{home};
ghost use Rattle.refusal.specs.Calls.{Below};
ghost use Rattle.text_form_inner.specs.Fits.{Fits};
ghost use Rattle.sheet_spec.specs.Layout.{FitsPage};
ghost use Rattle.sheet_spec.specs.Text.{cell_head, cell_foot, cell_text, leaf_head, foot_of, where_true, foot_text, target_text};

use sheet_spec::{Sheet, Source};

// The beginning of a target, its middle at x and y.
fn place_cell_head(buf: &mut [u8], at: usize, x: usize, y: usize, size: usize, n: usize) -> usize
    requires size_bound { (size ≤ 196) × (n ≤ 64) }
    requires at_in_bounds { at + 512 ≤ length buf.old }
    ensures { Fits 512 buf.old at (cell_head x y size n) result buf.new }
{
    let reach = 5 * size;
    let width = 10 * size;
    let half = 138 * n;
    let whole = 276 * n;
    text_form_inner::place_form(
        buf,
        at,
        b"<g transform=\"translate(% %)\">\n<svg x=\"-%\" y=\"-%\" width=\"%\" height=\"%\" overflow=\"visible\" viewBox=\"-% -% % %\">\n<g fill=\"none\" stroke-width=\"%\" transform=\"rotate(-90)\">\n",
        &[
            x,
            y,
            reach,
            reach,
            width,
            width,
            half,
            half,
            whole,
            whole,
            50 * n,
        ],
        0,
        b"",
    )
}

// The crop marks, the reading and the number of target i.
fn place_cell_foot(buf: &mut [u8], at: usize, size: usize, i: usize, ring: &[u8]) -> usize
    requires le_size { (10 ≤ size) × (size ≤ 196) × (i < 1000000) }
    requires at_in_bounds { at + 832 ≤ length buf.old }
    ensures { Fits 832 buf.old at (cell_foot size i ring.now) result buf.new }
{
    let a = 5 * size + 10;
    let b = 5 * size - 10;
    let f = (10 * size + 140) / 20;
    let first = 5 * size + 30;
    let second = 5 * size + 50;
    let third = 5 * size + 80;
    text_form_inner::place_form(
        buf,
        at,
        b"<path d=\"M-% -%V-%H-%M-% %V%H-%M% -%V-%H%M% %V%H%\" fill=\"none\" stroke=\"black\" stroke-width=\"1\"/>\n<text y=\"%\" font-size=\"%\">@</text>\n<text y=\"%\" font-size=\"%\">@</text>\n<text y=\"%\" font-size=\"20\">%</text>\n</g>\n",
        &[
            a, b, a, b, a, b, a, b, a, b, a, b, a, b, a, b, first, f, second, f, third, i,
        ],
        32,
        ring,
    )
}

// A target of a sheet that shows the reading as it is.
fn place_cell(buf: &mut [u8], at: usize, sheet: Sheet, i: usize, ring: &[u8]) -> usize
    requires le_k { (2 ≤ sheet.k) × (sheet.k ≤ 16) × (0 < length ring.now) × (length ring.now ≤ 64) × (i < 1000000) }
    requires below { Below ring.now (λ j. sheet.k) }
    requires fits_page { FitsPage sheet.size sheet.columns }
    requires at_in_bounds { at + 17792 ≤ length buf.old }
    ensures { Fits 17792 buf.old at (cell_text sheet i ring.now) result buf.new }
{
    let Sheet {
        k,
        tone,
        size,
        columns,
        ..
    } = sheet;
    let j = i % sheet_layout_inner::per_page(size, columns);
    let x = sheet_layout_inner::across_of(size, columns, j);
    let y = sheet_layout_inner::down_of(size, columns, j);
    let n = ring.len();
    let a = place_cell_head(buf, at, x, y, size, n);
    let b = picture_ring_inner::place_ring(buf, a, ring, k, tone);
    let c = picture_inner::place_tail(buf, b, n);
    place_cell_foot(buf, c, size, i, ring)
}

// A target that shows the home reading.
fn place_home(buf: &mut [u8], at: usize, sheet: Sheet, i: usize, ring: &[u8]) -> usize
    requires le_k { (2 ≤ sheet.k) × (sheet.k ≤ 16) × (0 < length ring.now) × (length ring.now ≤ 64) × (i < 1000000) }
    requires below { Below ring.now (λ j. sheet.k) }
    requires fits_page { FitsPage sheet.size sheet.columns }
    requires at_in_bounds { at + 17792 ≤ length buf.old }
    ensures { Fits 17792 buf.old at (cell_text sheet i (home ring.now)) result buf.new }
{
    let n = ring.len();
    let o = home_shift_inner::least_shift(ring);
    let mut turned = [0u8; 64];
    home_turns_inner::write_turn(ring, o, &mut turned[..n]);
    place_cell(buf, at, sheet, i, &turned[..n])
}

// The beginning of a page, where one begins.
fn place_opening(buf: &mut [u8], at: usize, first: bool) -> usize
    requires { at + 320 ≤ length buf.old }
    ensures { Fits 320 buf.old at (where_true first leaf_head) result buf.new }
{
    if !first {
        return at;
    }
    text_digits_inner::place_text(
        buf,
        at,
        b"<svg xmlns=\"http://www.w3.org/2000/svg\" width=\"210mm\" height=\"297mm\" viewBox=\"0 0 2100 2970\" font-family=\"monospace\" text-anchor=\"middle\" style=\"display:block\">\n<style>@page{size:210mm 297mm;margin:0}body{margin:0}</style>\n<rect width=\"2100\" height=\"2970\" fill=\"white\"/>\n",
    )
}

// The line at the foot, and the end of the page.
fn place_foot(buf: &mut [u8], at: usize, sheet: Sheet, page: usize) -> usize
    requires { at + 320 ≤ length buf.old }
    ensures { Fits 320 buf.old at (foot_of sheet.source sheet.n sheet.k sheet.d sheet.wanted page) result buf.new }
{
    let Sheet {
        n,
        k,
        d,
        wanted,
        source,
        ..
    } = sheet;
    match source {
        Source::Guarded => text_form_inner::place_form(
            buf,
            at,
            b"<text x=\"1050\" y=\"2890\" font-size=\"30\">n = %, k = %, d = %: guard % % % %, page %</text>\n</svg>\n",
            &[n, k, d, n, k, d, wanted, page],
            0,
            b"",
        ),
        Source::Plain => text_form_inner::place_form(
            buf,
            at,
            b"<text x=\"1050\" y=\"2890\" font-size=\"30\">n = %, k = %, d = %: set % % % %, page %</text>\n</svg>\n",
            &[n, k, d, n, k, d, wanted, page],
            0,
            b"",
        ),
        Source::Own => text_form_inner::place_form(
            buf,
            at,
            b"<text x=\"1050\" y=\"2890\" font-size=\"30\">n = %, k = %: rings of one's own, page %</text>\n</svg>\n",
            &[n, k, page],
            0,
            b"",
        ),
    }
}

// It, where a page ends.
fn place_closing(buf: &mut [u8], at: usize, sheet: Sheet, ends: bool, page: usize) -> usize
    requires { (page < 1000000) × (at + 320 ≤ length buf.old) }
    ensures { Fits 320 buf.old at (where_true ends (foot_text sheet page)) result buf.new }
{
    if !ends {
        return at;
    }
    place_foot(buf, at, sheet, page + 1)
}

// Whether target i is the last of its page, or of all.
fn ends_page(i: usize, last: bool, per: usize) -> bool
    requires { (i < 1000000) × (0 < per) }
    ensures { result ≡ (last || eqb ((i + 1) % per) 0) }
{
    last || (i + 1) % per == 0
}

// Target i of a sheet, with the beginning and the end of its page where they fall there.
pub fn place_target(buf: &mut [u8], sheet: Sheet, i: usize, last: bool, ring: &[u8]) -> usize
    requires le_k { (2 ≤ sheet.k) × (sheet.k ≤ 16) × (0 < length ring.now) × (length ring.now ≤ 64) × (i < 1000000) }
    requires below { Below ring.now (λ j. sheet.k) }
    requires fits_page { FitsPage sheet.size sheet.columns }
    requires in_bounds { 18432 ≤ length buf.old }
    ensures { Fits 18432 buf.old 0 (target_text sheet i last ring.now) result buf.new }
{
    let per = sheet_layout_inner::per_page(sheet.size, sheet.columns);
    let a = place_opening(buf, 0, i % per == 0);
    let b = place_home(buf, a, sheet, i, ring);
    let ends = ends_page(i, last, per);
    place_closing(buf, b, sheet, ends, i / per)
}
