// The moves of a step: from a prenecklace to the next one, until one of the kind is met. These are no public calls: the steps of crate `walk` check
// what `of_kind`, `class_at` and `advance` ask for.

#![tactic(auto)]

ghost use Rattle.std.specs.Prelude.{◌≡◌, ◌%◌, ◌<◌, ◌≤◌, eqb};
ghost use Rattle.walk_kind_laws.specs.Kinds.{kind_at, class_at, ReadyToStep};
ghost use Rattle.walk_moves_inner.specs.Going.{Found};

use rings::Class;
use walk_kind_laws::Kind;

// Whether p divides n, which is greater. Most are more than half of n: those do not, and nothing is divided.
fn divides(p: usize, n: usize) -> bool
    requires { (0 < p) × (p < n) }
    ensures { result ≡ eqb (n % p) 0 }
{
    p <= n - p && n % p == 0
}

// Whether a prenecklace of n sectors whose lyn is p is of the kind. Most have p = n: those are Lyndon words, which are of each kind, and nothing is divided.
pub fn of_kind(kind: Kind, n: usize, p: usize) -> bool
    requires { (0 < p) × (p ≤ n) }
    ensures { result ≡ kind_at kind n p }
{
    p == n
        || match kind {
            Kind::Prenecklace => true,
            Kind::Necklace => divides(p, n),
            Kind::Lyndon => false,
        }
}

// The class of a prenecklace of n sectors whose lyn is p.
pub fn class_at(n: usize, p: usize) -> Class
    requires { 0 < p }
    ensures { result ≡ class_at n p }
{
    if p == n {
        Class::Single
    } else if n % p == 0 {
        Class::Repeating(p)
    } else {
        Class::Opening(p)
    }
}

// What a step came to: the lyn of its ring, if there is one of the kind, and the moves.
#[derive(Clone, Copy)]
pub struct Reached {
    pub lyn: Option<usize>,
    pub moves: usize,
}

// From the ring, which is a prenecklace, to the next of the kind, in the ring's own place.
pub fn advance(ring: &mut [u8], k: usize, kind: Kind) -> Reached
    requires { ReadyToStep k ring.old }
    ensures { Found kind k ring.old ring.new result }
{
    // `lyn` is that of the prenecklace under way, 0 before the first move. It grows with each move, so the loop ends.
    let mut lyn = 0;
    let mut moves = 0;
    while let Some(at) = walk_raise_inner::last_low(ring, k) {
        moves += 1;
        if at == ring.len() - 1 {
            // Most rings: with the last sector raised it is a Lyndon word, and nothing is repeated behind it. It stands apart so that the compiler sees that.
            walk_raise_inner::raise(ring, at);
            return Reached {
                lyn: Some(at + 1),
                moves,
            };
        }
        walk_raise_inner::raise(ring, at);
        lyn = at + 1;
        if of_kind(kind, ring.len(), lyn) {
            return Reached {
                lyn: Some(lyn),
                moves,
            };
        }
    }
    Reached { lyn: None, moves }
}
