// What a chart job's command prints for a line, by `set_output::print_set`. The cases are the lines of stdin; then a good line with a
// newline, and with a buffer that has one byte too few. The expected text, stdout, is worked out from the definitions.

#![tactic(auto)]

fn print(line: &[u8], buf: &mut [u8]) {
    let m = set_output::print_set(line, buf);
    if m <= buf.len() {
        test_show::text(&buf[..m]);
    }
}

// An empty line, a good line with its newline, a line after it, and a buffer that has one byte too few.
fn ends() {
    print(b"", &mut [0u8; 818]);
    print(b"4 2 1 3\n", &mut [0u8; 818]);
    print(b"4 2 1 3\n\n", &mut [0u8; 818]);
    test_show::number(set_output::print_set(b"4 2 1 3", &mut [0u8; 817]));
    test_show::newline();
}

fn main() {
    let mut line = [0u8; 64];
    let mut buf = [0u8; 818];
    for _ in 0..test_cases::MANY {
        let n = test_cases::next(&mut line);
        if n == 0 {
            break;
        }
        print(&line[..n], &mut buf);
    }
    ends();
}
