// The divisor formulas (001, equation 1; 02, request f): their sums over the divisors of n, and how many rings they say there are. No public calls: crate `how_many`
// sees to it that n and k are a ring's numbers and that k to the power n is at most 2 to the power 32, so that nothing wraps.

#![tactic(auto)]

ghost use Rattle.std.specs.Prelude.{◌/◌, ◌≤◌, ◌<◌, ◌≡◌};
ghost use Rattle.rings.specs.Necklace.{necklace, lyndon};
ghost use Rattle.rings.specs.Steps.{how_many};
ghost use Rattle.how_many_number_spec.specs.Divisors.{when, divides, over_divisors};
ghost use Rattle.how_many_sums_inner.specs.Weights.{Small, weight_of, powers};

// What a sum over the divisors weighs its powers by: phi, or 1 where mu is 1, or 1 where mu is -1.
#[derive(Clone, Copy)]
pub enum Weight {
    Phi,
    Plus,
    Minus,
}

// The weight of a divisor.
fn weigh(w: Weight, d: usize) -> usize
    requires d_nonzero { 0 < d }
    requires d_bound { d ≤ 64 }
    ensures { (result ≡ weight_of w d) × (result ≤ 64) }
{
    match w {
        Weight::Phi => how_many_phi_inner::phi_of(d),
        Weight::Plus => how_many_mu_inner::mu_of(d, 0),
        Weight::Minus => how_many_mu_inner::mu_of(d, 1),
    }
}

// What d adds to the sum: nothing where it does not divide n.
fn summand(w: Weight, k: usize, n: usize, d: usize) -> usize
    requires small { Small k n }
    requires d_nonzero { 0 < d }
    requires d_le_n { d ≤ n }
    ensures { (result ≡ when (divides d n) (powers w k n d)) × (result ≤ 274877906944) }
{
    if n % d != 0 {
        return 0;
    }
    let e = n / d;
    weigh(w, d) * how_many_power_inner::power(k, e)
}

// The sum over the divisors of n: at most 64 summands of at most 64 times 2 to the power 32 each.
fn over_divisors(w: Weight, k: usize, n: usize) -> usize
    requires { Small k n }
    ensures { result ≡ over_divisors n (powers w k n) }
{
    let mut x = 0;
    for d in 0..n {
        x += summand(w, k, n, d + 1);
    }
    x
}

// The part of a sum that goes to each of n.
fn part(x: usize, n: usize) -> usize
    requires { 0 < n }
    ensures { result ≡ x / n }
{
    x / n
}

// How many necklaces there are (001, equation 1).
pub fn necklaces_of(k: usize, n: usize) -> usize
    requires { Small k n }
    ensures { result ≡ how_many necklace n k }
{
    let x = over_divisors(Weight::Phi, k, n);
    part(x, n)
}

// How many Lyndon words there are: the powers where mu is 1, less those where it is -1.
pub fn lyndon_of(k: usize, n: usize) -> usize
    requires { Small k n }
    ensures { result ≡ how_many lyndon n k }
{
    let plus = over_divisors(Weight::Plus, k, n);
    let minus = over_divisors(Weight::Minus, k, n);
    part(plus - minus, n)
}
