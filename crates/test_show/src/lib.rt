// Printing for the programs that run the vectors: readings, classes and refusals on standard output. No public calls: nothing here is part of the catalogue.

#![tactic(auto)]

use refusal::Refusal;
use rings::Class;

// The number of standard output.
const STDOUT_FILENO: i32 = 1;

// A piece of text.
pub fn text(s: &[u8]) {
    io::write_all(STDOUT_FILENO, s);
}

pub fn space() {
    text(b" ");
}

pub fn newline() {
    text(b"\n");
}

// Whether a line of cases is a heading, `say` and what it says; that is printed then.
pub fn said(line: &[u8]) -> bool {
    if line.len() < 4 || line[0] != b's' {
        return false;
    }
    text(&line[4..]);
    newline();
    true
}

// A number in decimal.
pub fn number(x: usize) {
    io::print_decimal(STDOUT_FILENO, x as u64);
}

// A number behind its name.
pub fn named(name: &[u8], x: usize) {
    text(name);
    number(x);
}

fn digit(x: u8) -> u8 {
    match x {
        0..=9 => b'0' + x,
        10..=15 => b'a' - 10 + x,
        _ => b'?',
    }
}

// Bytes as a reading, one lower-case hexadecimal digit for each sector; '?' for a byte that is no shade.
pub fn sectors(s: &[u8]) {
    for &x in s {
        text(&[digit(x)]);
    }
}

// What an output holds after a call.
pub fn output(out: &[u8]) {
    text(b" output ");
    sectors(out);
}

// Bytes, two lower-case hexadecimal digits each.
pub fn bytes(s: &[u8]) {
    for &x in s {
        text(&[digit(x / 16), digit(x % 16)]);
    }
}

// A class by its name, with its place, lyn or period.
pub fn class(c: Class) {
    match c {
        Class::Loose(p) => named(b"Loose ", p),
        Class::Opening(p) => named(b"Opening ", p),
        Class::Repeating(p) => named(b"Repeating ", p),
        Class::Single => text(b"Single"),
    }
}

// A refusal by its number and place.
pub fn refused(r: Refusal) {
    named(b"refused ", refusal::number(r));
    named(b" at ", refusal::place(r));
}
