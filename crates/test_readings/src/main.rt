// What no line of the desk can ask of the calls on readings: a sector that no digit spells, an output of another length, what a lent output holds behind a call, and
// `nearer`, which has no verb. The cases are the lines of stdin: `class`, a reading and k; `home`, a reading, k and what the output holds before the call; `near`, two
// readings, k and d: are they less than d apart? What is printed of a case is its line and the answer. The expected text, stdout, is written from the document and
// made from the definitions. What the desk can be asked stands in .ci/runs/desk-home.in.

#![tactic(auto)]

use home::Home;
use refusal::Refusal;
use rings::Class;

fn print_class(r: Result<Class, Refusal>) {
    match r {
        Ok(c) => test_show::class(c),
        Err(r) => test_show::refused(r),
    }
}

fn print_told(r: Result<bool, Refusal>) {
    match r {
        Ok(true) => test_show::text(b"yes"),
        Ok(false) => test_show::text(b"no"),
        Err(r) => test_show::refused(r),
    }
}

fn print_home(r: Result<Home, Refusal>) {
    match r {
        Ok(Home { shift, period }) => {
            test_show::named(b"shift ", shift);
            test_show::named(b" period ", period);
        }
        Err(r) => test_show::refused(r),
    }
}

// The call with an output, which is printed as the call leaves it.
fn into(s: &[u8], k: usize, out: &mut [u8]) {
    print_home(home::bring_home(s, k, out));
    test_show::output(out);
}

fn bring_home(line: &[u8]) {
    let mut s = [0u8; 65];
    let mut out = [0u8; 65];
    let n = test_cases::sectors(line, 1, &mut s);
    let m = test_cases::sectors(line, 3, &mut out);
    into(&s[..n], test_cases::number(line, 2), &mut out[..m]);
}

fn class(line: &[u8]) {
    let mut s = [0u8; 65];
    let n = test_cases::sectors(line, 1, &mut s);
    print_class(classify::classify(&s[..n], test_cases::number(line, 2)));
}

fn near(line: &[u8]) {
    let mut a = [0u8; 65];
    let mut b = [0u8; 65];
    let n = test_cases::sectors(line, 1, &mut a);
    let m = test_cases::sectors(line, 2, &mut b);
    print_told(home::nearer(
        &a[..n],
        &b[..m],
        test_cases::number(line, 3),
        test_cases::number(line, 4),
    ));
}

// The answer of a line's call, which its first letter tells.
fn answer(line: &[u8]) {
    match test_cases::letter(line, 0) {
        b'c' => class(line),
        b'h' => bring_home(line),
        _ => near(line),
    }
}

fn run(line: &[u8]) {
    test_show::text(line);
    test_show::text(b": ");
    answer(line);
    test_show::newline();
}

fn main() {
    let mut line = [0u8; 256];
    for _ in 0..test_cases::MANY {
        let n = test_cases::next(&mut line);
        if n == 0 {
            break;
        }
        run(&line[..n]);
    }
}
