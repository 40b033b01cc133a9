// Whether none of a ring's own turns comes near it, as the library tells. No public calls.

#![tactic(auto)]

ghost use Rattle.std.specs.Prelude.{◌≡◌};
ghost use Rattle.refusal.specs.Order.{Passed};
ghost use Rattle.refusal.specs.Calls.{one_reading};
ghost use Rattle.home_spec.specs.Turns.{steady};

// Whether each turn of s but itself differs from it at d places at least.
pub fn is_steady(s: &[u8], k: usize, d: usize) -> bool
    requires { Passed (one_reading s.now k) }
    ensures { result ≡ steady d s.now }
{
    matches!(home::steady(s, k, d), Ok(true))
}
