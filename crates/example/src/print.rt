// The example's lines: what it is, a ring of 6 sectors, and a number.

pub fn six(what: &[u8], ring: [u8; 6], label: &[u8], x: usize) {
    test_show::text(what);
    test_show::sectors(&ring);
    test_show::named(label, x);
    test_show::newline();
}

// The same, from 64 places of which the first 6 are used.
pub fn first_six(what: &[u8], r: [u8; 64], label: &[u8], x: usize) {
    six(what, [r[0], r[1], r[2], r[3], r[4], r[5]], label, x);
}
