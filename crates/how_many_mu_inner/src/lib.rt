// Moebius's mu, by trial division. No public calls: crate `how_many` sees to it that the numbers are small.

#![tactic(auto)]

ghost use Rattle.std.specs.Prelude.{◌%◌, ◌≤◌, ◌<◌, ◌≡◌, ◌&&◌, eqb};
ghost use Rattle.words.specs.Readings.{bit};
ghost use Rattle.how_many_number_spec.specs.Divisors.{divides};
ghost use Rattle.how_many_number_spec.specs.Mu.{prime, square_free, primes_of};

// Whether p is a prime: no number from 2 to p - 1 divides it.
fn is_prime(p: usize) -> bool
    ensures { result ≡ prime p }
{
    if p < 2 {
        return false;
    }
    for d in 2..p {
        if p % d == 0 {
            return false;
        }
    }
    true
}

// 1 where p is a prime that divides m.
fn prime_divisor(p: usize, m: usize) -> usize
    requires { 0 < p }
    ensures { (result ≡ bit (prime p && divides p m)) × (result ≤ 1) }
{
    usize::from(is_prime(p) && m % p == 0)
}

// How many primes divide m.
fn count_primes(m: usize) -> usize
    ensures { result ≡ primes_of m }
{
    let mut x = 0;
    for i in 0..m {
        x += prime_divisor(i + 1, m);
    }
    x
}

// Whether no square of a number from 2 on divides m.
fn is_square_free(m: usize) -> bool
    requires m_nonzero { 0 < m }
    requires m_bound { m ≤ 64 }
    ensures { result ≡ square_free m }
{
    for d in 2..m + 1 {
        if m % (d * d) == 0 {
            return false;
        }
    }
    true
}

// 1 where m is square-free and the number of its primes leaves that rest by 2: mu is 1 where the rest is 0, and -1 where it is 1.
pub fn mu_of(m: usize, rest: usize) -> usize
    requires m_nonzero { 0 < m }
    requires m_bound { m ≤ 64 }
    ensures { (result ≡ bit (square_free m && eqb (primes_of m % 2) rest)) × (result ≤ 1) }
{
    usize::from(is_square_free(m) && count_primes(m) % 2 == rest)
}
