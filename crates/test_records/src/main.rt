// Records read, written and moved, run and compared: document 01's two records, of which the back record is retired, request k's packed one and others, rings that are
// even-handed and rings that are not; the ends of a catalogue, catalogues read from record to record, records one behind the other; the bounds of n and k, each refusal behind
// several records, every clash of two faults, buffers that just fit and that are a byte short, and places near the greatest number. The expected text, stdout, is written
// from the documents.
// The cases are the lines of stdin; readings and catalogues are in hexadecimal digits, two for a byte of a catalogue:
//   `at`, a start and a catalogue: it is read with an output of 64 bytes, each 9 before the call; `into`: the same with the output's bytes between start and catalogue;
//   `each` and a catalogue: it is read from record to record;
//   `put`, k, the place, a reading and the buffer: a front record is written and read back; `pack`: the same for a packed one;
//   `move`, `front` or `packed`, and a catalogue: it is moved to that form, record by record, and what came of it to the other one; each time what stopped the moving is
//   printed, and the bytes that were written;
//   `say` and a heading.

#![tactic(auto)]

use catalogue::Record;
use refusal::Refusal;
use writer::Kind;

// ---- reading

fn print_kind(x: Kind) {
    match x {
        Kind::Front => test_show::text(b"front"),
        Kind::Packed => test_show::text(b"packed"),
    }
}

fn print_record(record: Record) {
    print_kind(record.kind);
    test_show::named(b" n ", record.n);
    test_show::named(b" k ", record.k);
    test_show::named(b" next ", record.next);
}

// Prints the answer at a start; where the next record starts, or the same start.
fn answer(r: Result<Option<Record>, Refusal>, start: usize) -> usize {
    match r {
        Ok(Some(record)) => {
            print_record(record);
            return record.next;
        }
        Ok(None) => test_show::text(b"end"),
        Err(r) => test_show::refused(r),
    }
    start
}

// The answer at a start, and what the output holds after it.
fn at(c: &[u8], start: usize, out: &mut [u8]) -> usize {
    test_show::named(b"at ", start);
    test_show::text(b": ");
    let next = answer(catalogue::read_record(c, start, out), start);
    test_show::text(b",");
    test_show::output(out);
    test_show::newline();
    next
}

// The same with an output of 64 bytes, which are 9 before the call.
fn full(c: &[u8], start: usize) -> usize {
    at(c, start, &mut [9u8; 64])
}

// Every record from the first on, and then the answer that is no record.
fn each(c: &[u8]) {
    let mut start = 0;
    let mut count: usize = 0;
    while count < 100 {
        let next = full(c, start);
        if next == start {
            break;
        }
        start = next;
        count += 1;
    }
}

fn into(c: &[u8], line: &[u8]) {
    let mut out = [0u8; 65];
    let m = test_cases::sectors(line, 2, &mut out);
    at(c, test_cases::number(line, 1), &mut out[..m]);
}

// ---- writing

// What the reader answers at a place, and its output, which held 9s.
fn read_back(buffer: &[u8], at: usize) {
    let mut out = [9u8; 64];
    test_show::text(b", read ");
    answer(catalogue::read_record(buffer, at, &mut out), at);
    test_show::space();
    test_show::sectors(&out);
}

// What was answered, the buffer after it, and what the reader makes of it.
fn print_written(r: Result<usize, Refusal>, buffer: &[u8], at: usize) {
    match r {
        Ok(e) => {
            test_show::named(b"after ", e);
            test_show::text(b": ");
            test_show::bytes(buffer);
            read_back(buffer, at);
        }
        Err(r) => {
            test_show::refused(r);
            test_show::text(b": ");
            test_show::bytes(buffer);
        }
    }
    test_show::newline();
}

fn put(reading: &[u8], k: usize, kind: Kind, buffer: &mut [u8], at: usize) {
    let r = writer::write_record(reading, k, kind, buffer, at);
    print_written(r, buffer, at);
}

// The kind of a record that is written, by the second letter of its line.
fn kind_of(x: u8) -> Kind {
    if x == b'a' {
        return Kind::Packed;
    }
    Kind::Front
}

fn write(line: &[u8], kind: Kind) {
    let mut reading = [0u8; 65];
    let mut buffer = [0u8; 128];
    let n = test_cases::sectors(line, 3, &mut reading);
    let m = test_cases::bytes(line, 4, &mut buffer);
    put(
        &reading[..n],
        test_cases::number(line, 1),
        kind,
        &mut buffer[..m],
        test_cases::number(line, 2),
    );
}

// ---- moving

// Where the next record is read, and where it is written.
#[derive(Clone, Copy)]
struct Places {
    from: usize,
    to: usize,
}

// The place after a record that was written, or the same place.
fn after(r: Result<usize, Refusal>, at: usize) -> usize {
    match r {
        Ok(e) => e,
        Err(_) => at,
    }
}

// Writes the first n sectors of a ring in the form of that kind; the place after the record, or the same place.
fn write_first(ring: &[u8], n: usize, k: usize, kind: Kind, out: &mut [u8], at: usize) -> usize {
    if ring.len() < n {
        return at;
    }
    after(writer::write_record(&ring[..n], k, kind, out, at), at)
}

// Moves one record; the same places where there is none, which is printed.
fn step(c: &[u8], p: Places, kind: Kind, out: &mut [u8]) -> Places {
    let mut ring = [0u8; 64];
    match catalogue::read_record(c, p.from, &mut ring) {
        Ok(Some(record)) => Places {
            from: record.next,
            to: write_first(&ring, record.n, record.k, kind, out, p.to),
        },
        Ok(None) => {
            test_show::text(b"end");
            p
        }
        Err(r) => {
            test_show::refused(r);
            p
        }
    }
}

// Moves every record; how many bytes they are.
fn moved(c: &[u8], kind: Kind, out: &mut [u8]) -> usize {
    let mut p = Places { from: 0, to: 0 };
    for _ in 0..test_cases::MANY {
        let q = step(c, p, kind, out);
        if q.from == p.from {
            break;
        }
        p = q;
    }
    p.to
}

// Moves every record, and prints the bytes.
fn shown(c: &[u8], kind: Kind, out: &mut [u8]) -> usize {
    let m = moved(c, kind, out);
    test_show::text(b": ");
    if m <= out.len() {
        test_show::bytes(&out[..m]);
    }
    m
}

// There and back.
fn both(c: &[u8], first: Kind, second: Kind) {
    let mut there = [0u8; 128];
    let m = shown(c, first, &mut there);
    test_show::text(b", back ");
    if m <= 128 {
        shown(&there[..m], second, &mut [0u8; 128]);
    }
    test_show::newline();
}

fn there_and_back(c: &[u8], line: &[u8]) {
    if test_cases::letter(line, 1) == b'f' {
        both(c, Kind::Front, Kind::Packed);
        return;
    }
    both(c, Kind::Packed, Kind::Front);
}

// ---- the lines

// A case, by the first letter, and its catalogue.
fn read(what: u8, c: &[u8], line: &[u8]) {
    if what == b'e' {
        each(c);
        return;
    }
    if what == b'i' {
        into(c, line);
        return;
    }
    if what == b'm' {
        there_and_back(c, line);
        return;
    }
    full(c, test_cases::number(line, 1));
}

// Which word the catalogue is: the last one.
fn last(what: u8) -> usize {
    if what == b'e' {
        return 1;
    }
    if what == b'i' {
        return 3;
    }
    2
}

// One line: a heading or a case.
fn run(line: &[u8]) {
    if test_show::said(line) {
        return;
    }
    if line.len() < 4 {
        return;
    }
    let what = line[0];
    if what == b'p' {
        write(line, kind_of(line[1]));
        return;
    }
    let mut c = [0u8; 128];
    let n = test_cases::bytes(line, last(what), &mut c);
    read(what, &c[..n], line);
}

fn main() {
    let mut line = [0u8; 512];
    for _ in 0..test_cases::MANY {
        let n = test_cases::next(&mut line);
        if n == 0 {
            break;
        }
        run(&line[..n]);
    }
}
