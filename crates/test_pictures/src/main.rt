// The calls that draw, run and compared with all that they write. The cases are the lines of stdin: `picture`, k, a reading, and 1 for levels; `room` and the same, with a
// buffer that is a byte too short; or `sheet` with n, k, d, the wanted number, 0, 1 or 2 for a guarded, a plain or one's own set, the size, the columns, 1 for levels, the
// target's place, 1 for the last, and a reading. The expected text, stdout, is written from the documents by a program of another kind.

#![tactic(auto)]

use pictures::Tone;
use sheets::{Sheet, Source};

fn tone_of(x: usize) -> Tone {
    match x {
        1 => Tone::Levels,
        _ => Tone::Managed,
    }
}

fn source_of(x: usize) -> Source {
    match x {
        0 => Source::Guarded,
        1 => Source::Plain,
        _ => Source::Own,
    }
}

fn refuse(r: refusal::Refusal) {
    test_show::refused(r);
    test_show::newline();
}

fn picture(line: &[u8]) {
    let mut reading = [0u8; 80];
    let n = test_cases::sectors(line, 2, &mut reading);
    let k = test_cases::number(line, 1);
    let tone = tone_of(test_cases::number(line, 3));
    let mut buf = io::large_buffer();
    match pictures::draw(&reading[..n], k, tone, &mut buf) {
        Ok(m) => test_show::text(&buf[..m]),
        Err(r) => refuse(r),
    }
}

fn short_room(line: &[u8]) {
    let mut reading = [0u8; 80];
    let n = test_cases::sectors(line, 2, &mut reading);
    let k = test_cases::number(line, 1);
    let mut buf = [0u8; 16767];
    match pictures::draw(&reading[..n], k, Tone::Managed, &mut buf) {
        Ok(m) => test_show::named(b"whole ", m),
        Err(r) => refuse(r),
    }
}

fn sheet(line: &[u8]) {
    let mut reading = [0u8; 80];
    let n = test_cases::sectors(line, 11, &mut reading);
    let asked = Sheet {
        n: test_cases::number(line, 1),
        k: test_cases::number(line, 2),
        d: test_cases::number(line, 3),
        wanted: test_cases::number(line, 4),
        source: source_of(test_cases::number(line, 5)),
        tone: tone_of(test_cases::number(line, 8)),
        size: test_cases::number(line, 6),
        columns: test_cases::number(line, 7),
    };
    let i = test_cases::number(line, 9);
    let last = test_cases::number(line, 10) == 1;
    let mut buf = io::large_buffer();
    match sheets::target(asked, &reading[..n], i, last, &mut buf) {
        Ok(m) => test_show::text(&buf[..m]),
        Err(r) => refuse(r),
    }
}

fn run(line: &[u8]) {
    match test_cases::letter(line, 0) {
        b'p' => picture(line),
        b'r' => short_room(line),
        b's' => sheet(line),
        _ => {}
    }
}

fn main() {
    let mut line = [0u8; 192];
    for _ in 0..test_cases::MANY {
        let m = test_cases::next(&mut line);
        if m == 0 {
            break;
        }
        run(&line[..m]);
    }
}
