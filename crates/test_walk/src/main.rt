// What a line of the desk cannot show of a walk: the record that a start and each step hand back, and records that no walk has made. The lists of 001, Figure 1, of 004,
// Figure 1, and of 002, section 2, the gap of 001, Figure 2, the hand cases of document 01, the first steps at n = 64 and k = 16, the longest steps for k = 2 and 3 and
// n = 3 to 20, bracelets, the counts of 16 shades, every step's Done, each refusal, and full walks: by necklaces for every k and n with k to the power n up to 2 to the
// power 16, and by bracelets. The expected text, stdout, is written from those documents and worked out by trying all readings. The cases are the lines of stdin:
//     walk READING K KIND TIMES     a start, and at most so many steps; each record: n, k, ring, class, and the 16 counts
//     count READING K KIND          how many rings a walk comes to behind the first, its moves with those of Done; what the periods of all add up to; how many are Single
//     made N K RING AT SECTOR CLASS VALUE COUNTS KIND     a step from the record of these, but for another sector in place AT, where that is below 64
// A kind is known by its first letter, and a bracelet tells no moves; a class by its number: 0 Loose, 1 Opening, 2 Repeating, 3 Single; counts are a digit each, 0 where none
// stands. The same steps from a reading, without a record, are the lines of .ci/runs/desk-walk.in.

#![tactic(auto)]

use refusal::Refusal;
use rings::Class;
use walk::{Arrival, Arrived, Outcome, Stepped, Walk};

// ---- a record

fn print_ring(w: Walk) {
    let n = w.n;
    let ring = w.ring;
    if n <= 64 {
        test_show::sectors(&ring[..n]);
    }
}

fn print_counts(counts: [u8; 16]) {
    for count in counts {
        test_show::space();
        test_show::number(usize::from(count));
    }
}

// A record, to the end of the line.
fn print_record(w: Walk) {
    test_show::named(b" record ", w.n);
    test_show::space();
    test_show::number(w.k);
    test_show::space();
    print_ring(w);
    test_show::space();
    test_show::class(w.class);
    print_counts(w.counts);
    test_show::newline();
}

// ---- a step

fn arrived(a: Arrival) -> Outcome {
    match a {
        Arrival::Moved => Outcome::Moved(0),
        Arrival::Done => Outcome::Done(0),
    }
}

// The step to the next bracelet, as one that tells 0 moves.
fn over(s: Arrived) -> Stepped {
    Stepped {
        outcome: s.arrival.map(arrived),
        walk: s.walk,
    }
}

// One of the four steps, by the first letter of its kind.
fn step(w: Walk, kind: u8) -> Stepped {
    match kind {
        b'p' => walk::next_prenecklace(w),
        b'n' => walk::next_necklace(w),
        b'l' => walk::next_lyndon(w),
        _ => over(walk::next_bracelet(w)),
    }
}

fn print_outcome(o: Result<Outcome, Refusal>) {
    match o {
        Ok(Outcome::Moved(m)) => test_show::named(b"moved ", m),
        Ok(Outcome::Done(m)) => test_show::named(b"done ", m),
        Err(r) => test_show::refused(r),
    }
}

// The records that follow, at most so many, up to the first that does not move.
fn follow(start: Walk, kind: u8, times: usize) {
    let mut w = start;
    for _ in 0..times {
        let s = step(w, kind);
        w = s.walk;
        print_outcome(s.outcome);
        print_record(w);
        let Ok(Outcome::Moved(_)) = s.outcome else {
            break;
        };
    }
}

// ---- a whole walk

// What is added up along a walk.
#[derive(Clone, Copy)]
struct Sums {
    moves: usize,
    periods: usize,
    single: usize,
}

// The moves of a step, Done's included.
fn moves_of(o: Result<Outcome, Refusal>) -> usize {
    match o {
        Ok(Outcome::Moved(m) | Outcome::Done(m)) => m,
        Err(_) => 0,
    }
}

// The period that a record's class tells; 0 where its ring is no necklace.
fn period_of(w: Walk) -> usize {
    match w.class {
        Class::Loose(_) | Class::Opening(_) => 0,
        Class::Repeating(p) => p,
        Class::Single => w.n,
    }
}

// 1 where the record's ring is classed Single.
fn single_of(w: Walk) -> usize {
    usize::from(w.class == Class::Single)
}

// What was met before, with a step's moves.
fn moved(m: Sums, o: Result<Outcome, Refusal>) -> Sums {
    Sums {
        moves: m.moves.wrapping_add(moves_of(o)),
        ..m
    }
}

// What was met before, with a record.
fn met(m: Sums, w: Walk) -> Sums {
    Sums {
        periods: m.periods.wrapping_add(period_of(w)),
        single: m.single.wrapping_add(single_of(w)),
        ..m
    }
}

fn print_met(rings: usize, m: Sums) {
    test_show::named(b": ", rings);
    test_show::named(b" moves ", m.moves);
    test_show::named(b" periods ", m.periods);
    test_show::named(b" single ", m.single);
    test_show::newline();
}

// One full walk. It is given up after 100,000 rings, which none of these has.
fn count_rings(start: Walk, kind: u8) {
    let mut w = start;
    let mut m = met(
        Sums {
            moves: 0,
            periods: 0,
            single: 0,
        },
        start,
    );
    for rings in 0..100000 {
        let s = step(w, kind);
        m = moved(m, s.outcome);
        let Ok(Outcome::Moved(_)) = s.outcome else {
            print_met(rings, m);
            return;
        };
        w = s.walk;
        m = met(m, w);
    }
    print_met(100000, m);
}

// ---- a record that no walk has made

fn class_of(case: usize, p: usize) -> Class {
    match case {
        0 => Class::Loose(p),
        1 => Class::Opening(p),
        2 => Class::Repeating(p),
        _ => Class::Single,
    }
}

// The ring that a line gives, with another sector.
fn ring_of(line: &[u8]) -> [u8; 64] {
    let mut ring = [0u8; 64];
    test_cases::sectors(line, 3, &mut ring);
    let at = test_cases::number(line, 4);
    if at < 64 {
        ring[at] = (test_cases::number(line, 5) % 256) as u8;
    }
    ring
}

fn counts_of(line: &[u8]) -> [u8; 16] {
    let mut counts = [0u8; 16];
    test_cases::sectors(line, 8, &mut counts);
    counts
}

fn made(line: &[u8]) -> Walk {
    Walk {
        n: test_cases::number(line, 1),
        k: test_cases::number(line, 2),
        ring: ring_of(line),
        class: class_of(test_cases::number(line, 6), test_cases::number(line, 7)),
        counts: counts_of(line),
    }
}

// ---- the lines

fn print_start(a: Result<(), Refusal>) {
    match a {
        Ok(()) => test_show::text(b"start"),
        Err(r) => test_show::refused(r),
    }
}

// A line that starts from a reading.
fn started(line: &[u8], what: u8) {
    let mut s = [0u8; 65];
    let n = test_cases::sectors(line, 1, &mut s);
    let r = walk::start(&s[..n], test_cases::number(line, 2));
    let kind = test_cases::letter(line, 3);
    if what == b'c' {
        test_show::text(line);
        count_rings(r.walk, kind);
        return;
    }
    print_start(r.answer);
    print_record(r.walk);
    follow(r.walk, kind, test_cases::number(line, 4));
}

fn run(line: &[u8]) {
    let what = test_cases::letter(line, 0);
    if what == b'm' {
        follow(made(line), test_cases::letter(line, 9), 1);
        return;
    }
    started(line, what);
}

fn main() {
    let mut line = [0u8; 128];
    for _ in 0..test_cases::MANY {
        let n = test_cases::next(&mut line);
        if n == 0 {
            break;
        }
        run(&line[..n]);
    }
}
