// Words, numbers and sectors placed into a lent buffer where they fit (01, 'The listing program'). No public calls: crate `text_lines_inner` makes lines of them.

#![tactic(auto)]

ghost use Rattle.std.specs.Prelude.{◌+◌, ◌≤◌, ◌≡◌, map, length};
ghost use Rattle.io.specs.Digits.{hex_digit_ascii};
ghost use Rattle.text_spec.specs.Decimal.{decimal};
ghost use Rattle.text_spec.specs.Text.{hex_of};
ghost use Rattle.text_spec.specs.Put.{Placed};

// Copies a text.
pub fn place_text(buf: &mut [u8], at: usize, text: &[u8]) -> usize
    requires { at + length text.now ≤ length buf.old }
    ensures { Placed buf.old at text.now result buf.new }
{
    let end = at + text.len();
    buf[at..end].copy_from_slice(text);
    end
}

// The decimal text of x. Most numbers of a listing are short, and are written straight.
pub fn place_decimal(buf: &mut [u8], at: usize, x: usize) -> usize
    requires { at + length (decimal x) ≤ length buf.old }
    ensures { Placed buf.old at (decimal x) result buf.new }
{
    if x < 10 {
        buf[at] = b'0' + x as u8;
        return at + 1;
    }
    if x < 100 {
        buf[at] = b'0' + (x / 10) as u8;
        buf[at + 1] = b'0' + (x % 10) as u8;
        return at + 2;
    }
    let mut digits = [0u8; 20];
    let m = io::decimal(x as u64, &mut digits);
    place_text(buf, at, &digits[..m])
}

// What a hexadecimal digit's value is added to: the code of 0, or that of a less 10.
fn digit_base(d: u8) -> u8
    ensures { (result + d ≡ hex_digit_ascii d) × (result ≤ 87) }
{
    if d < 10 { b'0' } else { b'a' - 10 }
}

// A lower-case hexadecimal digit.
fn hex(a: u8) -> u8
    ensures { result ≡ hex_of a }
{
    let d = a % 16;
    digit_base(d) + d
}

// The sectors as hexadecimal digits.
pub fn place_sectors(buf: &mut [u8], at: usize, ring: &[u8]) -> usize
    requires { at + length ring.now ≤ length buf.old }
    ensures { Placed buf.old at (map hex_of ring.now) result buf.new }
{
    for (i, &a) in ring.iter().enumerate() {
        buf[at + i] = hex(a);
    }
    at + ring.len()
}
