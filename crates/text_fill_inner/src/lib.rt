// A text with slots, filled with numbers and rings, placed into a lent buffer where it fits. No public calls.

#![tactic(auto)]

ghost use Rattle.std.specs.Prelude.{◌+◌, ◌≤◌, length};
ghost use Rattle.text_spec.specs.Put.{Placed};
ghost use Rattle.text_fill_spec.specs.Filled.{filled_text};
ghost use Rattle.text_fill_inner.specs.Says.{NumberAt, EndsAt};

// The number at i; 0 where there is none.
fn number_at(numbers: &[usize], i: usize) -> usize
    ensures { NumberAt numbers.now i result }
{
    if i < numbers.len() {
        return numbers[i];
    }
    0
}

// Where a ring of n sectors ends that begins at q, among `len` sectors.
fn ring_end(q: usize, n: usize, len: usize) -> usize
    requires { q ≤ len }
    ensures { EndsAt q n len result }
{
    if len - q < n {
        return len;
    }
    q + n
}

// The text: each % is the next number, each @ the next n sectors of `rings`.
pub fn place_filled(
    buf: &mut [u8],
    at: usize,
    text: &[u8],
    numbers: &[usize],
    n: usize,
    rings: &[u8],
) -> usize
    requires { at + length (filled_text text.now numbers.now n rings.now) ≤ length buf.old }
    ensures { Placed buf.old at (filled_text text.now numbers.now n rings.now) result buf.new }
{
    let mut p = at;
    let mut i = 0;
    let mut j = 0;
    let mut q = 0;
    while i < text.len() {
        let c = text[i];
        i += 1;
        if c == b'%' {
            p = text_digits_inner::place_decimal(buf, p, number_at(numbers, j));
            j += 1;
            continue;
        }
        if c == b'@' {
            let e = ring_end(q, n, rings.len());
            p = text_digits_inner::place_sectors(buf, p, &rings[q..e]);
            q = e;
            continue;
        }
        buf[p] = c;
        p += 1;
    }
    p
}
