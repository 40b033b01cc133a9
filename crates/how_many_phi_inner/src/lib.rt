// Euler's phi, by counting. No public calls: crate `how_many` sees to it that the numbers are small.

#![tactic(auto)]

ghost use Rattle.std.specs.Prelude.{◌≤◌, ◌<◌, ◌≡◌, eqb};
ghost use Rattle.words.specs.Readings.{bit};
ghost use Rattle.how_many_number_spec.specs.Phi.{divides_both, gcd, phi};

// Whether d divides a and b.
fn divides_both(a: usize, b: usize, d: usize) -> bool
    requires { 0 < d }
    ensures { result ≡ divides_both a b d }
{
    a % d == 0 && b % d == 0
}

// The greatest common divisor, from b down.
fn gcd_of(a: usize, b: usize) -> usize
    ensures { result ≡ gcd a b }
{
    for g in (1..=b).rev() {
        if divides_both(a, b, g) {
            return g;
        }
    }
    0
}

// 1 where i and m have no divisor in common but 1.
fn coprime(i: usize, m: usize) -> usize
    ensures { (result ≡ bit (eqb (gcd i m) 1)) × (result ≤ 1) }
{
    usize::from(gcd_of(i, m) == 1)
}

// How many of the numbers 1 to m have no divisor in common with m but 1.
pub fn phi_of(m: usize) -> usize
    ensures { (result ≡ phi m) × (result ≤ m) }
{
    let mut x = 0;
    for i in 0..m {
        x += coprime(i + 1, m);
    }
    x
}
