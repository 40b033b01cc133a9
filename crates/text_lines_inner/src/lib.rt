// The lines that the listing program prints (01, 'The listing program'), each placed into a lent buffer where it fits. No public calls: crate `listing` sees to the room.

#![tactic(auto)]

ghost use Rattle.std.specs.Prelude.{◌+◌, ◌≤◌, length};
ghost use Rattle.text_spec.specs.Text.{two_numbers, first_line, ring_line, last_line, refused_line};
ghost use Rattle.text_spec.specs.Put.{Placed};

// A word, x, a second word, y and a newline.
pub fn place_two(buf: &mut [u8], at: usize, head: &[u8], x: usize, middle: &[u8], y: usize) -> usize
    requires { at + length (two_numbers head.now x middle.now y) ≤ length buf.old }
    ensures { Placed buf.old at (two_numbers head.now x middle.now y) result buf.new }
{
    let a = text_digits_inner::place_text(buf, at, head);
    let b = text_digits_inner::place_decimal(buf, a, x);
    let c = text_digits_inner::place_text(buf, b, middle);
    let d = text_digits_inner::place_decimal(buf, c, y);
    text_digits_inner::place_text(buf, d, b"\n")
}

// The first line: k and n.
pub fn place_first(buf: &mut [u8], at: usize, k: usize, n: usize) -> usize
    requires { at + length (first_line k n) ≤ length buf.old }
    ensures { Placed buf.old at (first_line k n) result buf.new }
{
    place_two(buf, at, b"necklaces k=", k, b" n=", n)
}

// A ring's line: its sectors, the moves, the period.
pub fn place_ring(buf: &mut [u8], at: usize, ring: &[u8], moves: usize, period: usize) -> usize
    requires { at + length (ring_line ring.now moves period) ≤ length buf.old }
    ensures { Placed buf.old at (ring_line ring.now moves period) result buf.new }
{
    let a = text_digits_inner::place_sectors(buf, at, ring);
    buf[a] = b' ';
    let b = text_digits_inner::place_decimal(buf, a + 1, moves);
    buf[b] = b' ';
    let c = text_digits_inner::place_decimal(buf, b + 1, period);
    buf[c] = b'\n';
    c + 1
}

// The line of a ring that comes with 0 moves and has period 1, as the all-zero ring. So `place_ring` has one caller, into whose loop it is compiled.
pub fn place_zero_ring(buf: &mut [u8], at: usize, ring: &[u8]) -> usize
    requires { at + length (ring_line ring.now 0 1) ≤ length buf.old }
    ensures { Placed buf.old at (ring_line ring.now 0 1) result buf.new }
{
    let a = text_digits_inner::place_sectors(buf, at, ring);
    text_digits_inner::place_text(buf, a, b" 0 1\n")
}

// The last line: the number of rings and the sum of moves.
pub fn place_last(buf: &mut [u8], at: usize, rings: usize, moves: usize) -> usize
    requires { at + length (last_line rings moves) ≤ length buf.old }
    ensures { Placed buf.old at (last_line rings moves) result buf.new }
{
    place_two(buf, at, b"total ", rings, b" moves ", moves)
}

// The line of a refusal: its number.
pub fn place_refused(buf: &mut [u8], at: usize, x: usize) -> usize
    requires { at + length (refused_line x) ≤ length buf.old }
    ensures { Placed buf.old at (refused_line x) result buf.new }
{
    let a = text_digits_inner::place_text(buf, at, b"refused ");
    let b = text_digits_inner::place_decimal(buf, a, x);
    text_digits_inner::place_text(buf, b, b"\n")
}
