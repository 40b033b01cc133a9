// A walk's record of zeros, and the sectors of a reading as a record has them. No public calls.

#![tactic(auto)]

ghost use Rattle.std.specs.Prelude.{◌≡◌, ◌≤◌, length};
ghost use Rattle.walk_spec.specs.Record.{empty_walk, laid_out};

use rings::Class;
use walk_spec::Walk;

// The record that a refused start hands out.
pub fn empty() -> Walk
    ensures { result ≡ empty_walk }
{
    Walk {
        n: 0,
        k: 0,
        ring: [0u8; 64],
        class: Class::Loose(0),
        counts: [0u8; 16],
    }
}

// The reading with 0 behind it, 64 sectors in all.
pub fn lay_out(s: &[u8]) -> [u8; 64]
    requires { length s.now ≤ 64 }
    ensures { result ≡ laid_out s.now }
{
    let mut ring = [0u8; 64];
    byte_moves_inner::copy(s, &mut ring);
    ring
}
