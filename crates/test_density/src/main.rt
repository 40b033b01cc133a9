// Reflectances and cards run and compared: values at, one float below and one float above each cut, the bounds, both zeros, infinities and what is not a number,
// each refusal with its place, and the order of the checks. The cases are the lines of stdin; a float is its bit pattern in hexadecimal digits.
//     sector VALUE K DARK LIGHT
//     ring N K DARK LIGHT OUTPUT VALUE ..    N values; OUTPUT is what the output holds before the call, a digit a byte
//     mid K                                  the card 0 and 1, and the ring of the K values j / (K - 1)
// What is printed of a case is its line and the answer; of a ring also what the output holds after the call. The expected text, stdout, is worked out from the
// request's formula with floats of another make.

#![tactic(auto)]

pub mod floats;

use density_spec::{Card, Sector};
use refusal::Refusal;

fn print_sector(s: Sector) {
    match s {
        Sector::Shade(shade) => test_show::named(b"shade ", shade as usize),
        Sector::Outside(value) => floats::print(b"outside ", value),
        Sector::NotANumber => test_show::text(b"not a number"),
    }
}

fn print_read(r: Result<Sector, Refusal>) {
    match r {
        Ok(s) => print_sector(s),
        Err(r) => test_show::refused(r),
    }
}

fn print_ring(r: Result<(), Refusal>, out: &[u8]) {
    match r {
        Ok(()) => test_show::text(b"written"),
        Err(r) => test_show::refused(r),
    }
    test_show::output(out);
}

// The card whose two fields stand behind `before` words.
fn card(line: &[u8], before: usize) -> Card {
    Card {
        dark: floats::word(line, before),
        light: floats::word(line, std::num::wrapping_add_usize(before, 1)),
    }
}

fn sector(line: &[u8]) {
    print_read(density::sector_shade(
        floats::word(line, 1),
        test_cases::number(line, 2),
        card(line, 3),
    ));
}

// The ring of the first n values, into an output.
fn into(values: &[f32], n: usize, k: usize, c: Card, out: &mut [u8]) {
    if values.len() < n {
        return;
    }
    let r = density::ring_shades(&values[..n], k, c, out);
    print_ring(r, out);
}

fn ring(line: &[u8]) {
    let mut values = [0.0f32; 65];
    let mut out = [0u8; 65];
    let n = floats::words(line, 6, test_cases::number(line, 1), &mut values);
    let m = test_cases::sectors(line, 5, &mut out);
    into(
        &values,
        n,
        test_cases::number(line, 2),
        card(line, 3),
        &mut out[..m],
    );
}

// The same by the card 0 and 1, into an output of n bytes.
fn by_full_card(values: &[f32], n: usize, k: usize, out: &mut [u8]) {
    if out.len() < n {
        return;
    }
    into(
        values,
        n,
        k,
        Card {
            dark: 0.0,
            light: 1.0,
        },
        &mut out[..n],
    );
}

fn mid(k: usize) {
    let mut values = [0.0f32; 65];
    let mut out = [9u8; 65];
    let n = floats::steps(k, &mut values);
    by_full_card(&values, n, k, &mut out);
}

fn run(line: &[u8]) {
    test_show::text(line);
    test_show::text(b": ");
    match test_cases::letter(line, 0) {
        b'r' => ring(line),
        b's' => sector(line),
        _ => mid(test_cases::number(line, 1)),
    }
    test_show::newline();
}

fn main() {
    let mut line = [0u8; 768];
    for _ in 0..test_cases::MANY {
        let n = test_cases::next(&mut line);
        if n == 0 {
            break;
        }
        run(&line[..n]);
    }
}
