// The calls of the strip along the frame run and compared with all that they leave. The cases are the lines of stdin: `write`, how many bytes the output has,
// n and k; or `place`, a reading and k. Before the call each byte of the output is 255, which prints as '?'. The expected text, stdout, has each strip as the
// Lyndon words of the lengths that divide n, sorted and joined, and each place as it is found in that text doubled.

#![tactic(auto)]

// An output of any length, 64 bytes at a time.
fn print_out(out: &[u8]) {
    for piece in out.chunks(64) {
        test_show::sectors(piece);
    }
}

fn write(n: usize, k: usize, out: &mut [u8]) {
    match strip::write_strip(n, k, out) {
        Ok(()) => test_show::text(b"strip "),
        Err(r) => {
            test_show::refused(r);
            test_show::space();
        }
    }
    print_out(out);
    test_show::newline();
}

fn place(reading: &[u8], k: usize) {
    match strip::place_of(reading, k) {
        Ok(p) => test_show::named(b"place ", p),
        Err(r) => test_show::refused(r),
    }
    test_show::newline();
}

// ---- the lines

fn line_of_write(line: &[u8]) {
    let mut out = [255u8; 8192];
    let m = test_cases::number(line, 1);
    if 8192 < m {
        return;
    }
    write(
        test_cases::number(line, 2),
        test_cases::number(line, 3),
        &mut out[..m],
    );
}

fn line_of_place(line: &[u8]) {
    let mut s = [0u8; 65];
    let n = test_cases::sectors(line, 1, &mut s);
    place(&s[..n], test_cases::number(line, 2));
}

// One line; the first letter tells what to do.
fn run(line: &[u8]) {
    if let Some(&letter) = line.first() {
        match letter {
            b'w' => line_of_write(line),
            _ => line_of_place(line),
        }
    }
}

fn main() {
    let mut line = [0u8; 128];
    for _ in 0..test_cases::MANY {
        let n = test_cases::next(&mut line);
        if n == 0 {
            break;
        }
        run(&line[..n]);
    }
}
