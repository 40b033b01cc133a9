// The report of streams (02, request f), by its calls, run and compared. The cases are the lines of stdin, in which `_` is a space, `;` a newline, `^` a carriage return and
// `.` the byte 0; the first letter tells which:
//   `>` and a stream: it is fed in two blocks, cut at every byte, then byte after byte, and then through a buffer with room for two lines;
//   `feed`, a state's length and its nine bytes, the length of the buffer and a block: what one call leaves, the answer, the state and every byte of the buffer, also from
//   states that no call hands out and with buffers that have no room for a line;
//   `end`, and the same without a block.
// The expected text, stdout, is worked out from the rules, and its numbers from a count of the readings that each turn leaves as they are.

#![tactic(auto)]

ghost use Rattle.io.specs.Counts.{IsPrefixLen};

use report_spec::{Fed, Pending};

// ---- bytes

fn meant(b: u8) -> u8 {
    if b == b'_' {
        return b' ';
    }
    if b == b';' {
        return b'\n';
    }
    if b == b'^' {
        return b'\r';
    }
    if b == b'.' {
        return 0;
    }
    b
}

// The bytes that a word stands for, written from the front of out on; how many they are.
fn spell(word: &[u8], out: &mut [u8]) -> usize
    ensures { IsPrefixLen result out.new }
{
    let mut i = 0;
    while i < out.len() {
        if word.len() <= i {
            return i;
        }
        out[i] = meant(word[i]);
        i += 1;
    }
    i
}

fn shown(b: u8) -> u8 {
    match b {
        b' ' => b'_',
        b'\n' => b';',
        0 => b'.',
        _ => b,
    }
}

// Bytes on one line, spelt as in the cases.
fn print_bytes(s: &[u8]) {
    for &b in s {
        test_show::text(&[shown(b)]);
    }
}

// ---- a stream

// The first m bytes of a buffer.
fn print_first(buf: &[u8], m: usize) {
    if m <= buf.len() {
        test_show::text(&buf[..m]);
    }
}

// A block for which there is room.
fn print_fed(p: Pending, block: &[u8], buf: &mut [u8]) -> Pending {
    let fed = report::feed(p, block, buf);
    print_first(buf, fed.length);
    fed.state
}

fn print_end(p: Pending, buf: &mut [u8]) {
    let m = report::finish(p, buf);
    print_first(buf, m);
}

// In two blocks.
fn run_cut(stream: &[u8], cut: usize, buf: &mut [u8]) {
    if stream.len() < cut {
        return;
    }
    let p = print_fed(report::start(), &stream[..cut], buf);
    let q = print_fed(p, &stream[cut..], buf);
    print_end(q, buf);
}

fn print_cut(cut: usize) {
    test_show::named(b"> ", cut);
    test_show::newline();
}

// Cut at every byte.
fn every_cut(stream: &[u8], buf: &mut [u8]) {
    for cut in 0..=stream.len() {
        print_cut(cut);
        run_cut(stream, cut, buf);
    }
}

// Each byte a block of its own.
fn byte_by_byte(stream: &[u8], buf: &mut [u8]) {
    let mut p = report::start();
    for &b in stream {
        p = print_fed(p, &[b], buf);
    }
    print_end(p, buf);
}

// All that is left offered each time, until nothing is taken.
fn as_taken(stream: &[u8], buf: &mut [u8]) {
    let mut p = report::start();
    let mut i = 0;
    while i < stream.len() {
        let fed = report::feed(p, &stream[i..], buf);
        print_first(buf, fed.length);
        let t = fed.taken;
        if t < 1 {
            return;
        }
        if stream.len() - i < t {
            return;
        }
        p = fed.state;
        i += t;
    }
    print_end(p, buf);
}

fn run_stream(stream: &[u8]) {
    let mut buf = [0u8; 4096];
    every_cut(stream, &mut buf);
    test_show::text(b"> bytes\n");
    byte_by_byte(stream, &mut buf);
    test_show::text(b"> room for two lines\n");
    as_taken(stream, &mut buf[..65]);
}

// ---- one call

fn print_state(p: Pending) {
    let line = p.line;
    test_show::named(b" state ", p.len);
    test_show::space();
    print_bytes(&line);
}

fn print_answer(fed: Fed) {
    test_show::named(b"taken ", fed.taken);
    test_show::named(b" length ", fed.length);
    print_state(fed.state);
}

fn print_buffer(buf: &[u8]) {
    test_show::text(b" buffer ");
    print_bytes(buf);
    test_show::newline();
}

fn feed(p: Pending, block: &[u8], buf: &mut [u8]) {
    print_answer(report::feed(p, block, buf));
    print_buffer(buf);
}

fn end(p: Pending, buf: &mut [u8]) {
    test_show::named(b"length ", report::finish(p, buf));
    print_buffer(buf);
}

// ---- the lines

// The state of a line.
fn state(line: &[u8]) -> Pending {
    let mut bytes = [0u8; 9];
    spell(test_cases::word(line, 2), &mut bytes);
    Pending {
        line: bytes,
        len: test_cases::number(line, 1),
    }
}

fn line_of_feed(line: &[u8], buf: &mut [u8]) {
    let mut block = [0u8; 64];
    let m = spell(test_cases::word(line, 4), &mut block);
    feed(state(line), &block[..m], buf);
}

fn line_of_stream(line: &[u8]) {
    if line.len() < 1 {
        return;
    }
    let mut stream = [0u8; 128];
    let m = spell(&line[1..], &mut stream);
    run_stream(&stream[..m]);
}

// One line, with a buffer of at most 64 bytes.
fn run(line: &[u8]) {
    let first = test_cases::letter(line, 0);
    if first == b'>' {
        line_of_stream(line);
        return;
    }
    let mut buf = [b'-'; 64];
    let m = test_cases::number(line, 3) % 65;
    if first == b'f' {
        line_of_feed(line, &mut buf[..m]);
        return;
    }
    end(state(line), &mut buf[..m]);
}

fn main() {
    let mut line = [0u8; 128];
    for _ in 0..test_cases::MANY {
        let n = test_cases::next(&mut line);
        if n == 0 {
            break;
        }
        run(&line[..n]);
    }
}
