// The two calls of `shades` run and compared with all that they leave: the cases of documents 01 and 002, calls at n = 64 that plain backtracking could not answer, and
// refusals. The cases are the lines of stdin; `COUNTS` is how many shade counts there are, and those.
//     first OUTPUT K COUNTS            the first ring; OUTPUT is what the output holds before the call, a digit a byte
//     next READING OUTPUT K COUNTS     the ring that follows the reading
//     list READING K COUNTS            all rings, from the first on to the last, of as many sectors as the reading has
//     count READING K COUNTS           how many they are
// The expected text, stdout, is written from those documents. A ring is a digit a sector; a refusal and Done leave the output as it was.

#![tactic(auto)]

use refusal::Refusal;
use shades::Next;

// ---- one call, and what it leaves

fn print_first(r: Result<(), Refusal>) {
    match r {
        Ok(()) => test_show::text(b"ring"),
        Err(r) => test_show::refused(r),
    }
}

fn print_next(r: Result<Next, Refusal>) {
    match r {
        Ok(Next::Ring) => test_show::text(b"ring"),
        Ok(Next::Done) => test_show::text(b"done"),
        Err(r) => test_show::refused(r),
    }
}

fn first(k: usize, counts: &[usize], out: &mut [u8]) {
    print_first(shades::first_ring(k, counts, out));
    test_show::output(out);
}

fn next(s: &[u8], k: usize, counts: &[usize], out: &mut [u8]) {
    print_next(shades::next_ring(s, k, counts, out));
    test_show::output(out);
}

// ---- from the first ring on to the last

// The ring's line.
fn print_ring(ring: &[u8]) {
    test_show::sectors(ring);
    test_show::newline();
}

// Whether `first_ring` gives a ring; a refusal is printed.
fn begins(k: usize, counts: &[usize], ring: &mut [u8]) -> bool {
    let Err(r) = shades::first_ring(k, counts, ring) else {
        return true;
    };
    test_show::refused(r);
    test_show::newline();
    false
}

// Whether there is a next ring, which is then in `ring`; what else is answered is printed.
fn goes_on(k: usize, counts: &[usize], ring: &mut [u8], next: &mut [u8]) -> bool {
    let answer = shades::next_ring(ring, k, counts, next);
    let Ok(Next::Ring) = answer else {
        print_next(answer);
        test_show::newline();
        return false;
    };
    if next.len() <= ring.len() {
        byte_moves_inner::copy(next, ring);
    }
    true
}

// How many rings there are with these counts, from the first on until there is no other; each one's line is printed where they are listed.
fn walk(k: usize, counts: &[usize], ring: &mut [u8], next: &mut [u8], listed: bool) -> usize {
    if !begins(k, counts, ring) {
        return 0;
    }
    for passed in 0..20000 {
        if listed {
            print_ring(ring);
        }
        if !goes_on(k, counts, ring, next) {
            return passed + 1;
        }
    }
    20000
}

// ---- the lines

fn line_of_first(line: &[u8], counts: &[usize]) {
    let mut out = [0u8; 65];
    let m = test_cases::sectors(line, 1, &mut out);
    first(test_cases::number(line, 2), counts, &mut out[..m]);
}

fn line_of_next(line: &[u8], counts: &[usize]) {
    let mut s = [0u8; 65];
    let mut out = [0u8; 65];
    let n = test_cases::sectors(line, 1, &mut s);
    let m = test_cases::sectors(line, 2, &mut out);
    next(&s[..n], test_cases::number(line, 3), counts, &mut out[..m]);
}

fn line_of_walk(line: &[u8], counts: &[usize], listed: bool) {
    let mut ring = [0u8; 64];
    let mut next = [0u8; 64];
    let n = test_cases::sectors(line, 1, &mut ring);
    let m = test_cases::sectors(line, 1, &mut next);
    let k = test_cases::number(line, 2);
    test_show::named(
        b"rings ",
        walk(k, counts, &mut ring[..n], &mut next[..m], listed),
    );
}

// One line; the first letter tells what to do.
fn answer(line: &[u8], counts: &[usize]) {
    match test_cases::letter(line, 0) {
        b'f' => line_of_first(line, counts),
        b'n' => line_of_next(line, counts),
        b'l' => line_of_walk(line, counts, true),
        _ => line_of_walk(line, counts, false),
    }
}

// How many words stand before the counts.
fn before(what: u8) -> usize {
    if what == b'n' { 4 } else { 3 }
}

fn run(line: &[u8]) {
    let mut counts = [0usize; 20];
    let m = test_cases::numbers(line, before(test_cases::letter(line, 0)), &mut counts);
    answer(line, &counts[..m]);
    test_show::newline();
}

fn main() {
    let mut line = [0u8; 256];
    for _ in 0..test_cases::MANY {
        let n = test_cases::next(&mut line);
        if n == 0 {
            break;
        }
        run(&line[..n]);
    }
}
