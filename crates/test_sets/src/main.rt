// The calls `sets::pick` and, where a line ends with 1, `sets::pick_guarded` run and compared with all that they leave: the rings in the places, how many were taken
// and whether that is the wanted number, how many other sectors are not 0; or a refusal's number and place, with all of that; and behind each what `sets::lay_out` makes of
// it, the rings end to end. The cases are the lines of stdin: n, k, the distance and the wanted number. The expected text, stdout, is worked out from the definitions: every
// reading in order, each, and for guarded sets its mirror image and its turns, compared with all taken.

#![tactic(auto)]

use sets::Picked;

// The ring in place j.
fn ring(places: &[u8], n: usize, j: usize) {
    if 24 < n {
        return;
    }
    if 31 < j {
        return;
    }
    if places.len() != 768 {
        return;
    }
    let from = 24 * j;
    let to = from + n;
    test_show::sectors(&places[from..to]);
    test_show::newline();
}

fn rings(places: &[u8], n: usize, taken: usize) {
    for j in 0..taken {
        ring(places, n, j);
    }
}

// How many sectors are not 0 that belong to no ring taken.
fn others(places: &[u8], n: usize, taken: usize) -> usize {
    let mut m: usize = 0;
    for (x, &sector) in places.iter().enumerate() {
        let belongs = x % 24 < n && x / 24 < taken;
        if !belongs && sector != 0 {
            m = std::num::wrapping_add_usize(m, 1);
        }
    }
    m
}

fn full(f: bool) {
    if f {
        test_show::text(b" full");
        return;
    }
    test_show::text(b" not full");
}

// What the answer has besides its rings.
fn end(p: Picked, n: usize) {
    test_show::named(b"taken ", p.taken);
    full(p.full);
    test_show::named(b", others ", others(&p.places, n, p.taken));
    test_show::newline();
}

fn picked(n: usize, k: usize, d: usize, wanted: usize, guarded: usize) -> Picked {
    if guarded == 1 {
        return sets::pick_guarded(n, k, d, wanted);
    }
    sets::pick(n, k, d, wanted)
}

// ---- the rings end to end

fn size(n: usize, taken: usize) -> usize {
    if 24 < n {
        return 0;
    }
    if 32 < taken {
        return 0;
    }
    n * taken
}

fn lay(p: Picked, n: usize, out: &mut [u8]) {
    test_show::text(b"laid ");
    match sets::lay_out(p, n, out) {
        Ok(()) => test_show::sectors(out),
        Err(r) => test_show::refused(r),
    }
    test_show::newline();
}

// In a buffer with room for them.
fn laid(p: Picked, n: usize, m: usize, buf: &mut [u8]) {
    if buf.len() < m {
        return;
    }
    lay(p, n, &mut buf[0..m]);
}

// ---- the lines

fn run(line: &[u8]) {
    let n = test_cases::number(line, 0);
    let p = picked(
        n,
        test_cases::number(line, 1),
        test_cases::number(line, 2),
        test_cases::number(line, 3),
        test_cases::number(line, 4),
    );
    match p.answer {
        Err(r) => {
            test_show::refused(r);
            test_show::text(b", ");
        }
        Ok(()) => rings(&p.places, n, p.taken),
    }
    end(p, n);
    let mut buf = [0u8; 768];
    laid(p, n, size(n, p.taken), &mut buf);
}

fn main() {
    let mut line = [0u8; 64];
    for _ in 0..test_cases::MANY {
        let n = test_cases::next(&mut line);
        if n == 0 {
            break;
        }
        run(&line[..n]);
    }
}
