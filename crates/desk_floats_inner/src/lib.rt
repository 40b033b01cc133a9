// Floats by their bits: eight hexadecimal digits each, the highest first, that lie end to end. No public calls.

#![tactic(auto)]

ghost use Rattle.std.specs.Prelude.{◌+◌, ◌*◌, ◌<◌, ◌≤◌, ◌≡◌, length, get_or, take, drop};
ghost use Rattle.std.specs.Float.{binary32};
ghost use Rattle.std.specs.Float.Ieee.{of_bits};
ghost use Rattle.text_words_spec.specs.Words.{Nibbles};
ghost use Rattle.desk_spec.specs.Floats.{pattern_of};
ghost use Rattle.desk_floats_inner.specs.Says.{FloatsSay};

// The number of two digits.
fn byte_at(s: &[u8], at: usize) -> u32
    requires nibbles { Nibbles s.now }
    requires at_in_bounds { at + 2 ≤ length s.now }
    ensures { (result ≡ get_or s.now at 0 * 16 + get_or s.now (at + 1) 0) × (result < 256) }
{
    u32::from(s[at]) * 16 + u32::from(s[at + 1])
}

// The number of eight digits.
fn pattern_at(s: &[u8], at: usize) -> u32
    requires nibbles { Nibbles s.now }
    requires at_in_bounds { at + 8 ≤ length s.now }
    ensures { result ≡ pattern_of (take 8 (drop at s.now)) }
{
    let a = byte_at(s, at);
    let b = byte_at(s, at + 2);
    let c = byte_at(s, at + 4);
    let d = byte_at(s, at + 6);
    ((a * 256 + b) * 256 + c) * 256 + d
}

// The float of a pattern. What is not a number is made by a division: no pattern of it is turned into a float.
pub fn of_pattern(bits: u32) -> f32
    ensures { result ≡ of_bits binary32 bits }
{
    if bits % 0x8000_0000 / 0x0080_0000 != 255 {
        return f32::from_bits(bits);
    }
    if bits % 0x0080_0000 == 0 {
        return f32::from_bits(bits);
    }
    0.0 / 0.0
}

// Writes the floats of the first n patterns.
pub fn write_floats(s: &[u8], n: usize, out: &mut [f32])
    requires nibbles { Nibbles s.now }
    requires n_in_bounds { 8 * n ≤ length s.now }
    requires n_in_bounds_2 { n ≤ length out.old }
    ensures { FloatsSay s.now n out.new }
{
    for i in 0..n {
        out[i] = of_pattern(pattern_at(s, 8 * i));
    }
}
