// What a program says on standard error, by how its run ended, printed on standard output: each text, a refusal with the least and with the greatest numbers, and
// what is left of a buffer that is a byte too short.

#![tactic(auto)]

use program_ending_inner::Ending;

// The text of an ending, its newline included, and how long it is.
fn tell(e: Ending) {
    let mut buf = [46u8; 80];
    let m = program_ending_inner::say(e, &mut buf);
    test_show::text(&buf[..m]);
    test_show::named(b"length ", m);
    test_show::newline();
}

// A buffer of 79 bytes is left as it was.
fn tell_short(e: Ending) {
    let mut buf = [46u8; 79];
    let m = program_ending_inner::say(e, &mut buf);
    test_show::named(b"of 79: length ", m);
    test_show::space();
    test_show::text(&buf[..3]);
    test_show::newline();
}

fn main() {
    tell(Ending::Whole);
    tell(Ending::Refused(9, 4));
    tell(Ending::Refused(7, 0));
    tell(Ending::Refused(17, 18446744073709551615));
    tell(Ending::Unread);
    tell(Ending::Unwritten);
    tell(Ending::TooLong);
    tell(Ending::NoFile);
    tell(Ending::Lost);
    tell(Ending::Changed);
    tell_short(Ending::Refused(9, 4));
}
