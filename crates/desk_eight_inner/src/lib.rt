// Whether the words of a card and of values behind it are as many, and as long, as floats take. No public calls.

#![tactic(auto)]

ghost use Rattle.std.specs.Prelude.{◌≤◌};
ghost use Rattle.desk_eight_inner.specs.Says.{AllEight};

// Whether the words are three or more, of eight digits each: the last lies from the place l to the place m, and all up to m.
pub fn all_eight(u: &[u8], l: usize, m: usize) -> bool
    requires { l ≤ m }
    ensures { AllEight u.now l m result }
{
    m - l == 8 && 24 <= m && desk_rings_inner::each_long(u, 8)
}
