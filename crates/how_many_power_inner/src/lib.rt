// A power, factor after factor. No public calls: the callers see to it that it is at most 2 to the power 32, so that nothing wraps.

#![tactic(auto)]

ghost use Rattle.std.specs.Prelude.{◌^◌, ◌≤◌, ◌<◌, ◌≡◌};

// k to the power e.
pub fn power(k: usize, e: usize) -> usize
    requires k_nonzero { 0 < k }
    requires e_bound { k ^ e ≤ 4294967296 }
    ensures { result ≡ k ^ e }
{
    let mut p = 1;
    for _ in 0..e {
        p *= k;
    }
    p
}
