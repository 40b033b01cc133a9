// How the calls are used: a reading is brought home, a walk takes three steps from there, and a record is read.

#![tactic(auto)]

mod print;

use walk::{Outcome, Walk};

fn step(w: Walk) -> Walk {
    let stepped = walk::next_necklace(w);
    let next = stepped.walk;
    match stepped.outcome {
        Ok(Outcome::Moved(m)) => print::first_six(b"next ", next.ring, b", moves ", m),
        Ok(Outcome::Done(_)) => test_show::text(b"no next\n"),
        Err(r) => test_show::refused(r),
    }
    next
}

fn main() {
    let mut ring = [0u8; 6];
    match home::bring_home(b"\x01\x01\0\x01\0\0", 2, &mut ring) {
        Ok(home) => print::six(b"home ", ring, b", shift ", home.shift),
        Err(r) => test_show::refused(r),
    }
    step(step(step(walk::start(&ring, 2).walk)));
    let mut front = [0u8; 64];
    match catalogue::read_record(b"RF\x06\x02\0\0\x01\0\x01\x01", 0, &mut front) {
        Ok(Some(record)) => print::first_six(b"record ", front, b", next at ", record.next),
        Ok(None) => test_show::text(b"no record\n"),
        Err(r) => test_show::refused(r),
    }
}
