// Which numbers k and n may be listed, counted or written out whole (01, 'Refusal numbers'; 02, requests f, g and l): 1, 2, and 12 where k to the power n is above
// a limit. The limit is a parameter: each program and call has its own.

#![tactic(auto)]

ghost use Rattle.std.specs.Prelude.{◌^◌, ◌≡◌, ltb};
ghost use Rattle.limits_spec.specs.Limits.{NumbersSay};

use refusal::Refusal;

// The greatest power that is not Too many in the listing program and for a target set: 2 to the power 24.
pub const MOST_LISTED: usize = 16777216;

// Whether k to the power n is above the limit, exactly. The product is only formed where it stays within the limit, so that nothing
// wraps; from k = 2 on it doubles at least, so that at most 64 turns are made, however large n is.
pub fn power_above(k: usize, n: usize, limit: usize) -> bool
    ensures { result ≡ ltb limit (k ^ n) }
{
    if n == 0 {
        return limit < 1;
    }
    if k < 2 {
        return limit < k;
    }
    if limit < 1 {
        return true;
    }
    let mut p = 1;
    for _ in 0..n {
        if limit / k < p {
            return true;
        }
        p *= k;
    }
    false
}

// The order 1, 2, 12.
pub fn plan_numbers(k: usize, n: usize, limit: usize) -> Result<(usize, usize), Refusal>
    ensures { NumbersSay limit k n result }
{
    check_numbers_inner::check_numbers(n, n, k)?;
    if power_above(k, n, limit) {
        return Err(Refusal::TooMany);
    }
    Ok((k, n))
}
