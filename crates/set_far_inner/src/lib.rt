// Whether two lent readings are at least so far apart: by their shade counts where these tell, else as the library tells. No public calls.

#![tactic(auto)]

ghost use Rattle.std.specs.Prelude.{◌≡◌, ◌-◌, length};
ghost use Rattle.words.specs.Sequence.{sec};
ghost use Rattle.rings.specs.Counts.{counts_of};
ghost use Rattle.ring_home_laws.specs.Counts.{surplus};
ghost use Rattle.refusal.specs.Order.{Passed};
ghost use Rattle.refusal.specs.Calls.{two_readings};
ghost use Rattle.set_spec.specs.Greedy.{far_from};

// How many more the first counts have of each shade than the second, summed over the 16 shades.
fn surplus_of(a: &[u8], b: &[u8]) -> usize
    requires { (length a.now ≡ 16) × (length b.now ≡ 16) }
    ensures { result ≡ surplus 16 (sec a.now) (sec b.now) }
{
    let mut more = 0;
    for (&x, &y) in a.iter().zip(b) {
        more += usize::from(x.saturating_sub(y));
    }
    more
}

// Whether a and b are at least d apart. ca and cb are their shade counts: where a has so many more of the shades, no turn is looked at.
pub fn is_far(a: &[u8], ca: &[u8], b: &[u8], cb: &[u8], k: usize, d: usize) -> bool
    requires passed { Passed (two_readings a.now b.now k) }
    requires ca_value { ca.now ≡ counts_of 16 a.now }
    requires cb_value { cb.now ≡ counts_of 16 b.now }
    ensures { result ≡ far_from d a.now b.now }
{
    d <= surplus_of(ca, cb) || !home::nearer(a, b, k, d).unwrap_or(true)
}
