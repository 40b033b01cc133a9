// The next bracelet above any reading (02, request c). A beginning can be completed to a bracelet exactly where it, filled up with the highest shade, is one
// (004, Lemma 1): so each question about a beginning is one test of a whole reading, and no ring between is looked at. No public calls.

#![tactic(auto)]

ghost use Rattle.std.specs.Prelude.{◌<◌, ◌≤◌, length};
ghost use Rattle.bracelet_next_inner.specs.Going.{ByteReading, BraceletLifted, Led, Completed, NextBraceletSays};

// Raises the last sector that can be raised so that the beginning can be completed, to the least such shade, and fills up behind it. Answers its place,
// counted from 1; 0 where there is none. A place is given up after one test, that of the highest shade.
fn lift(s: &mut [u8], k: usize) -> usize
    requires { ByteReading k s.old }
    ensures { BraceletLifted k s.old result s.new }
{
    let top = (k - 1) as u8;
    let mut i = s.len();
    while 0 < i {
        i -= 1;
        let here = s[i];
        if here == top {
            continue;
        }
        s[i] = top;
        if bracelet_test_inner::is_bracelet(s) {
            bracelet_settle_inner::settle(s, i, here + 1, here + 1, top);
            return i + 1;
        }
    }
    0
}

// The shade that stands p places before place i, or 0 where there is no such place.
fn asked(s: &[u8], i: usize, p: usize) -> u8
    requires { i ≤ length s.now }
{
    if p < 1 || i < p {
        return 0;
    }
    s[i - p]
}

// Takes at each place from m on the least shade that keeps the beginning completable. Where its beginning has lyn p, a prenecklace asks for the shade p places before, or
// a greater one, which makes the beginning a Lyndon word: so that one is tried first. Behind a sector that was raised p is m; were it another, the answer would be the same.
fn complete(s: &mut [u8], m: usize, k: usize)
    requires { (1 < k) × (k < 256) × Led k s.old m }
    ensures { Completed k s.old m s.new }
{
    let top = (k - 1) as u8;
    let mut p = m;
    for i in m..s.len() {
        let near = asked(s, i, p);
        bracelet_settle_inner::settle(s, i, 0, near, top);
        if near < s[i] {
            p = i + 1;
        }
    }
}

// Makes a reading the next bracelet of the same n and k above it; where there is none it answers no, and the sectors are of no use.
pub fn next(s: &mut [u8], k: usize) -> bool
    requires { ByteReading k s.old }
    ensures { NextBraceletSays k s.old result s.new }
{
    let m = lift(s, k);
    if m == 0 {
        return false;
    }
    complete(s, m, k);
    true
}
