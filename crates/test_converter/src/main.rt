// Old catalogues converted, whole and in blocks: document 01's back record, catalogues of both marks, damage of each kind in the first, a middle and the last record, ends that
// are cut, and outputs of another length; a catalogue of three records cut at every byte, with more to follow and as the last block. The expected text, stdout, is written from
// the documents, and that of the blocks by a program of another kind.
// The cases are the lines of stdin: `turn`, the output before the call and an old catalogue, both in hexadecimal digits; `part` for a block that is followed by others or
// `last`, the output before the call and the block; `say` and a heading.

#![tactic(auto)]

use refusal::Refusal;

// What is answered of a catalogue, and of a block.
fn conversion(v: Result<(), Refusal>) {
    match v {
        Ok(()) => test_show::text(b"converted"),
        Err(r) => test_show::refused(r),
    }
}

fn stretch(v: Result<usize, Refusal>) {
    match v {
        Ok(m) => test_show::named(b"records ", m),
        Err(r) => test_show::refused(r),
    }
}

// The output after the call, and what was answered.
fn turn(old: &[u8], out: &mut [u8]) {
    let v = converter::convert(old, out);
    test_show::bytes(out);
    test_show::space();
    conversion(v);
}

// The same of a block, and what checking alone answers.
fn part(block: &[u8], last: bool, out: &mut [u8]) {
    let v = converter_blocks::convert(block, last, out);
    test_show::bytes(out);
    test_show::space();
    stretch(v);
    test_show::text(b", checked: ");
    stretch(converter_blocks::check(block, last));
}

// A case, by its first letter.
fn convert(what: u8, old: &[u8], out: &mut [u8]) {
    if what == b't' {
        turn(old, out);
        return;
    }
    part(old, what == b'l', out);
}

// One line.
fn run(line: &[u8]) {
    if test_show::said(line) {
        return;
    }
    if line.len() < 4 {
        return;
    }
    let mut old = [0u8; 160];
    let mut out = [0u8; 160];
    let n = test_cases::bytes(line, 2, &mut old);
    let m = test_cases::bytes(line, 1, &mut out);
    convert(line[0], &old[..n], &mut out[..m]);
    test_show::newline();
}

fn main() {
    let mut line = [0u8; 512];
    for _ in 0..test_cases::MANY {
        let n = test_cases::next(&mut line);
        if n == 0 {
            break;
        }
        run(&line[..n]);
    }
}
