// The listing program's library run and compared: listings, every refusal, malformed lines, wide numbers, the limit of Too many, and pages. Standard input holds the
// lines: cases with '#' between them. With '=' a case is a name and a line that is listed, with '%' likewise by way of 107 bytes, the fewest, so that a listing has
// many pages; with '@' it is a line and the limit of its plan. The expected text, stdout, is written from document 01 and from an enumeration of all
// readings by its definitions.

#![tactic(auto)]

ghost use Rattle.std.specs.Prelude.{◌≤◌, length};
ghost use Rattle.listing_spec.specs.Paging.{row_room};

use listing_spec::{Page, State};
use refusal::Refusal;

// The number of standard input.
const STDIN_FILENO: i32 = 0;

// The number of standard output.
const STDOUT_FILENO: i32 = 1;

// The first place that holds the character, or the length.
fn find(s: &[u8], character: u8) -> usize
    ensures { result ≤ length s.now }
{
    s.iter().position(|&c| c == character).unwrap_or(s.len())
}

// A name, and what the program writes for the line behind the mark.
fn list(case: &[u8], mark: u8, buf: &mut [u8])
    requires { row_room ≤ length buf.old }
{
    let at = find(case, mark);
    if at < case.len() {
        test_show::text(&case[..at]);
        listing_program_inner::print_through(&case[at + 1..], buf);
    }
}

// A line, and its plan where a power above the limit behind the mark is Too many.
fn limited(case: &[u8]) {
    let at = find(case, b'@');
    if at < case.len() {
        plan(&case[..at], test_cases::number(&case[at + 1..], 0));
    }
}

// A case by its mark.
fn run(case: &[u8]) {
    list(case, b'=', &mut io::buffer());
    list(case, b'%', &mut [0u8; 107]);
    limited(case);
}

// One case after another.
fn run_all(cases: &[u8]) {
    let mut at = 0;
    while at < cases.len() {
        let end = at + find(&cases[at..], b'#');
        run(&cases[at..end]);
        at = end + 1;
    }
}

// ---- plans

fn accepted(k: usize, n: usize) {
    test_show::named(b": accepted ", k);
    test_show::space();
    test_show::number(n);
}

fn refused(r: Refusal) {
    test_show::text(b": ");
    test_show::refused(r);
}

fn planned(p: Result<(usize, usize), Refusal>) {
    match p {
        Ok((k, n)) => accepted(k, n),
        Err(r) => refused(r),
    }
}

// The plan of a line, where a power above `limit` is Too many.
fn plan(line: &[u8], limit: usize) {
    test_show::text(line);
    test_show::named(b" within ", limit);
    planned(plan::plan_line(line, limit));
    test_show::newline();
}

// ---- pages from states made by hand

// How many bytes a page has, how many sectors the ring behind it, and its text.
fn show_page(page: Page, buf: &[u8]) {
    let length = page.length;
    let n = page.state.n;
    test_show::number(length);
    test_show::named(b" bytes, then n is ", n);
    test_show::newline();
    if length <= buf.len() {
        io::write_all(STDOUT_FILENO, &buf[..length]);
    }
}

// The state at d, 0, 1, 1 in k shades, with so many rings and moves, and the page that follows from it in a buffer with room for one line and no two.
fn next(k: usize, d: u8, rings: usize, moves: usize) {
    let mut ring = [0u8; 64];
    ring[0] = d;
    ring[2] = 1;
    ring[3] = 1;
    let s = State {
        k,
        n: 4,
        ring,
        rings,
        moves,
    };
    let mut buf = [0u8; 115];
    let page = listing::next_page(s, &mut buf);
    show_page(page, &buf);
}

// The first page in a buffer that has no room for a line.
fn first_without_room() {
    test_show::text(b"> a first page in 106 bytes\n");
    let mut buf = [0u8; 106];
    let page = listing::first_page(b"2 4", &mut buf);
    show_page(page, &buf);
}

// A ring, one that is no necklace, one with a sector that is no shade, 17 shades, and counts at the limit and above it.
fn states() {
    test_show::text(b"> pages that follow from states\n");
    next(2, 0, 3, 3);
    next(2, 1, 3, 3);
    next(2, 2, 3, 3);
    next(17, 0, 3, 3);
}

fn counts() {
    next(2, 0, 16777216, 16777216);
    next(2, 0, 16777217, 3);
    next(2, 0, 3, 16777217);
}

fn main() {
    let mut cases = io::buffer();
    let got = io::read_full(STDIN_FILENO, &mut cases);
    run_all(&cases[..got]);
    states();
    counts();
    first_without_room();
}
