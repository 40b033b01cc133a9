// What the desk prints for an answer, placed into a lent buffer that has room for a line. No public calls.

#![tactic(auto)]

ghost use Rattle.std.specs.Prelude.{◌+◌, ◌≤◌, [], ◌∷◌, length, Ok};
ghost use Rattle.text_fill_spec.specs.Filled.{filled_text, longest};
ghost use Rattle.desk_spec.specs.Texts.{plain_text, counted_ring_text, refusal_text, malformed_text, name_text, home_text, told_text, distance_text, place_text, many_text, stock_text};
ghost use Rattle.desk_texts_inner.specs.Says.{desk_room, longest_ring, longest_plain, ring_line_text, done_text, LinePrinted, SaidPrinted};

use home_spec::Home;
use refusal::Refusal;
use rings::Class;

// A filled text that is no longer than a line.
pub fn place_line(
    buf: &mut [u8],
    at: usize,
    text: &[u8],
    numbers: &[usize],
    n: usize,
    ring: &[u8],
) -> usize
    requires n_bound { longest text.now n ≤ desk_room }
    requires desk_room_in_bounds { at + desk_room ≤ length buf.old }
    ensures { LinePrinted buf.old at (filled_text text.now numbers.now n ring.now) result buf.new }
{
    text_fill_inner::place_filled(buf, at, text, numbers, n, ring)
}

// A short text with numbers and no ring.
pub fn place_plain(buf: &mut [u8], at: usize, text: &[u8], numbers: &[usize]) -> usize
    requires text_len_bound { length text.now ≤ longest_plain }
    requires desk_room_in_bounds { at + desk_room ≤ length buf.old }
    ensures { LinePrinted buf.old at (plain_text text.now numbers.now) result buf.new }
{
    place_line(buf, at, text, numbers, 0, b"")
}

// One with no number.
pub fn place_words(buf: &mut [u8], at: usize, text: &[u8]) -> usize
    requires text_len_bound { length text.now ≤ longest_plain }
    requires desk_room_in_bounds { at + desk_room ≤ length buf.old }
    ensures { LinePrinted buf.old at (plain_text text.now []) result buf.new }
{
    place_plain(buf, at, text, &[])
}

// One with one number.
pub fn place_number(buf: &mut [u8], at: usize, text: &[u8], x: usize) -> usize
    requires text_len_bound { length text.now ≤ longest_plain }
    requires desk_room_in_bounds { at + desk_room ≤ length buf.old }
    ensures { LinePrinted buf.old at (plain_text text.now (x ∷ [])) result buf.new }
{
    place_plain(buf, at, text, &[x])
}

// A text with a ring and no number.
pub fn place_ring_line(buf: &mut [u8], at: usize, text: &[u8], ring: &[u8]) -> usize
    requires ring_bound { longest text.now (length ring.now) ≤ desk_room }
    requires desk_room_in_bounds { at + desk_room ≤ length buf.old }
    ensures { LinePrinted buf.old at (counted_ring_text text.now [] ring.now) result buf.new }
{
    place_line(buf, at, text, &[], ring.len(), ring)
}

// The line of a ring that was asked for.
pub fn place_ring(buf: &mut [u8], at: usize, ring: &[u8]) -> usize
    requires ring_len_bound { length ring.now ≤ longest_ring }
    requires desk_room_in_bounds { at + desk_room ≤ length buf.old }
    ensures { LinePrinted buf.old at (ring_line_text ring.now) result buf.new }
{
    place_ring_line(buf, at, b"ring @\n", ring)
}

// The line where there is no next ring.
pub fn place_done(buf: &mut [u8], at: usize) -> usize
    requires { at + desk_room ≤ length buf.old }
    ensures { LinePrinted buf.old at done_text result buf.new }
{
    place_words(buf, at, b"done\n")
}

// The line of a refusal.
pub fn place_refusal(buf: &mut [u8], at: usize, r: Refusal) -> usize
    requires { at + desk_room ≤ length buf.old }
    ensures { LinePrinted buf.old at (refusal_text r) result buf.new }
{
    let x = refusal::number(r);
    let p = refusal::place(r);
    place_plain(buf, at, b"refused % at %\n", &[x, p])
}

// The line of what is no question.
pub fn place_malformed(buf: &mut [u8], at: usize) -> usize
    requires { at + desk_room ≤ length buf.old }
    ensures { LinePrinted buf.old at malformed_text result buf.new }
{
    place_refusal(buf, at, Refusal::Line)
}

// What was said where it is not refused, and the refusal's line where it is.
pub fn place_said(buf: &mut [u8], at: usize, said: Result<usize, Refusal>) -> usize
    requires { at + desk_room ≤ length buf.old }
    ensures { SaidPrinted buf.old at said result buf.new }
{
    match said {
        Ok(end) => end,
        Err(r) => place_refusal(buf, at, r),
    }
}

// A class.
pub fn place_class(buf: &mut [u8], at: usize, c: Class) -> usize
    requires { at + desk_room ≤ length buf.old }
    ensures { LinePrinted buf.old at (name_text c) result buf.new }
{
    match c {
        Class::Loose(p) => place_number(buf, at, b"loose at %\n", p),
        Class::Opening(p) => place_number(buf, at, b"opening %\n", p),
        Class::Repeating(p) => place_number(buf, at, b"repeating %\n", p),
        Class::Single => place_words(buf, at, b"single\n"),
    }
}

pub fn place_homed(buf: &mut [u8], at: usize, a: Result<Home, Refusal>, ring: &[u8]) -> usize
    requires ring_len_bound { length ring.now ≤ longest_ring }
    requires desk_room_in_bounds { at + desk_room ≤ length buf.old }
    ensures { LinePrinted buf.old at (home_text a ring.now) result buf.new }
{
    match a {
        Ok(Home { shift, period }) => place_line(
            buf,
            at,
            b"home @ shift % period %\n",
            &[shift, period],
            ring.len(),
            ring,
        ),
        Err(r) => place_refusal(buf, at, r),
    }
}

pub fn place_told(buf: &mut [u8], at: usize, a: Result<bool, Refusal>) -> usize
    requires { at + desk_room ≤ length buf.old }
    ensures { LinePrinted buf.old at (told_text a) result buf.new }
{
    match a {
        Ok(true) => place_words(buf, at, b"yes\n"),
        Ok(false) => place_words(buf, at, b"no\n"),
        Err(r) => place_refusal(buf, at, r),
    }
}

pub fn place_distance(buf: &mut [u8], at: usize, a: Result<usize, Refusal>) -> usize
    requires { at + desk_room ≤ length buf.old }
    ensures { LinePrinted buf.old at (distance_text a) result buf.new }
{
    match a {
        Ok(x) => place_number(buf, at, b"apart %\n", x),
        Err(r) => place_refusal(buf, at, r),
    }
}

pub fn place_position(buf: &mut [u8], at: usize, a: Result<usize, Refusal>) -> usize
    requires { at + desk_room ≤ length buf.old }
    ensures { LinePrinted buf.old at (place_text a) result buf.new }
{
    match a {
        Ok(p) => place_number(buf, at, b"place %\n", p),
        Err(r) => place_refusal(buf, at, r),
    }
}

// How many rings there are, and those that look different at each turn.
pub fn place_many(
    buf: &mut [u8],
    at: usize,
    all: Result<usize, Refusal>,
    lyndon: Result<usize, Refusal>,
) -> usize
    requires { at + desk_room ≤ length buf.old }
    ensures { LinePrinted buf.old at (many_text all lyndon) result buf.new }
{
    match (all, lyndon) {
        (Ok(x), Ok(y)) => place_plain(buf, at, b"% %\n", &[x, y]),
        (Err(r), _) | (Ok(_), Err(r)) => place_refusal(buf, at, r),
    }
}

pub fn place_stock(buf: &mut [u8], at: usize, b: u8) -> usize
    requires { at + desk_room ≤ length buf.old }
    ensures { LinePrinted buf.old at (stock_text b) result buf.new }
{
    place_number(buf, at, b"%\n", usize::from(b))
}
