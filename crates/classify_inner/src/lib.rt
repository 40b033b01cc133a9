// How far bytes are a prenecklace, and their class, by one scan (000, Theorem 2.1); and what a class is and carries. No public calls: `classify::classify` is, and
// refuses what is no reading.

#![tactic(auto)]

ghost use Rattle.std.specs.Prelude.{◌≡◌, ◌<◌, length};
ghost use Rattle.rings.specs.Class.{class_of, tag_of, value_of, is_loose, is_necklace, loose_place};
ghost use Rattle.classify_inner.specs.Beginning.{LongestPrenecklace};

use rings::Class;

// How far a reading is a prenecklace: its longest beginning that is one ends before `end`, and the lyn of that beginning is `lyn`.
#[derive(Clone, Copy)]
pub struct Begun {
    pub end: usize,
    pub lyn: usize,
}

// One scan from left to right: the first i sectors are a run of i - j, that is, a prenecklace whose lyn is i - j, so that sector j is the one that
// sector i is held to (000, Theorem 2.1). It asks for at least one sector.
pub fn scan(s: &[u8]) -> Begun
    requires { 0 < length s.now }
    ensures { LongestPrenecklace s.now result }
{
    let n = s.len();
    let mut j = 0;
    for i in 1..n {
        let here = s[i];
        let opposite = s[j];
        if here < opposite {
            return Begun { end: i, lyn: i - j };
        }
        if here == opposite {
            j += 1;
        } else {
            j = 0;
        }
    }
    Begun { end: n, lyn: n - j }
}

// The class of any bytes, whatever the number of shades. No bytes at all count as a necklace of period 1, as the definitions have it; the calls refuse them.
pub fn class_of(s: &[u8]) -> Class
    ensures { result ≡ class_of s.now }
{
    let n = s.len();
    if n < 1 {
        return Class::Repeating(1);
    }
    let begun = scan(s);
    if begun.end < n {
        return Class::Loose(begun.end);
    }
    let p = begun.lyn;
    if p == n {
        return Class::Single;
    }
    if n % p == 0 {
        return Class::Repeating(p);
    }
    Class::Opening(p)
}

// The case of a class, as a number.
pub fn tag(c: Class) -> usize
    ensures { result ≡ tag_of c }
{
    match c {
        Class::Loose(_) => 0,
        Class::Opening(_) => 1,
        Class::Repeating(_) => 2,
        Class::Single => 3,
    }
}

// The number that a class carries; Single gives 0.
pub fn value(c: Class) -> usize
    ensures { result ≡ value_of c }
{
    match c {
        Class::Loose(p) => p,
        Class::Opening(p) => p,
        Class::Repeating(p) => p,
        Class::Single => 0,
    }
}

// Whether a reading of this class is no prenecklace.
pub fn is_loose(c: Class) -> bool
    ensures { result ≡ is_loose c }
{
    matches!(c, Class::Loose(_))
}

// Whether a reading of this class is a necklace.
pub fn is_necklace(c: Class) -> bool
    ensures { result ≡ is_necklace c }
{
    matches!(c, Class::Repeating(_) | Class::Single)
}

// The place that Loose carries; the other classes give 0.
pub fn loose_place(c: Class) -> usize
    ensures { result ≡ loose_place c }
{
    if let Class::Loose(p) = c { p } else { 0 }
}
