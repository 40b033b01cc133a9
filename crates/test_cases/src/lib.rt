// Reading the cases of the programs that run the vectors: lines of words, one space between two words, so that an empty reading is an empty word.
// No public calls: nothing here is part of the catalogue.

#![tactic(auto)]

ghost use Rattle.io.specs.Counts.{IsPrefixLen};

// No program has as many cases as this.
pub const MANY: usize = 1000;

// The next byte of standard input; a newline where none is left.
fn byte() -> u8 {
    let mut b = [b'\n'; 1];
    io::read_full(0, &mut b);
    b[0]
}

// The next line of standard input, written from the front of `line` on; how many bytes it has. It is 0 where no case is left: none is empty.
pub fn next(line: &mut [u8]) -> usize
    ensures { IsPrefixLen result line.new }
{
    let n = line.len();
    for i in 0..n {
        let b = byte();
        if b == b'\n' {
            return i;
        }
        line[i] = b;
    }
    n
}

// The word of a line that has `before` words before it; an empty one where there is none.
pub fn word(line: &[u8], before: usize) -> &[u8] {
    line.split(|&b| b == b' ').nth(before).unwrap_or(&[])
}

// That word's first letter; 0 of an empty one.
pub fn letter(line: &[u8], before: usize) -> u8 {
    word(line, before).first().copied().unwrap_or(0)
}

// The digit's value; one from b'a' on is 10 and more.
fn digit(x: u8) -> u8 {
    if x < b'a' {
        return x % 16;
    }
    x % 16 + 9
}

// The decimal number of these digits, modulo 2 to the power 64.
fn decimal(digits: &[u8]) -> usize {
    let mut x: usize = 0;
    for &d in digits {
        x = std::num::wrapping_add_usize(x % 1844674407370955162 * 10, usize::from(digit(d)));
    }
    x
}

// That word as a decimal number.
pub fn number(line: &[u8], before: usize) -> usize {
    decimal(word(line, before))
}

// The sectors of these digits, written from the front of out on; how many they are.
fn spell(digits: &[u8], out: &mut [u8]) -> usize
    ensures { IsPrefixLen result out.new }
{
    let n = digits.len().min(out.len());
    for i in 0..n {
        out[i] = digit(digits[i]);
    }
    n
}

// That word as a reading, a digit for each sector; `g` is 16.
pub fn sectors(line: &[u8], before: usize, out: &mut [u8]) -> usize
    ensures { IsPrefixLen result out.new }
{
    spell(word(line, before), out)
}

// The byte of two hexadecimal digits.
fn paired(high: u8, low: u8) -> u8 {
    digit(high) % 16 * 16 + digit(low) % 16
}

// The bytes of these hexadecimal digits, two for each, written from the front of out on; how many they are.
fn spell_bytes(digits: &[u8], out: &mut [u8]) -> usize
    ensures { IsPrefixLen result out.new }
{
    let n = (digits.len() / 2).min(out.len());
    for i in 0..n {
        out[i] = paired(digits[2 * i], digits[2 * i + 1]);
    }
    n
}

// That word as bytes, two hexadecimal digits for each.
pub fn bytes(line: &[u8], before: usize, out: &mut [u8]) -> usize
    ensures { IsPrefixLen result out.new }
{
    spell_bytes(word(line, before), out)
}

// That word says how many numbers follow it: those, written from the front of out on; how many they are.
pub fn numbers(line: &[u8], before: usize, out: &mut [usize]) -> usize
    ensures { IsPrefixLen result out.new }
{
    let first = std::num::wrapping_add_usize(before, 1);
    let n = number(line, before).min(out.len());
    for i in 0..n {
        out[i] = number(line, std::num::wrapping_add_usize(first, i));
    }
    n
}
