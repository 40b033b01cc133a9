// The least shade at a place that makes a reading a bracelet, where each shade above one that does makes it one too. No public calls.

#![tactic(auto)]

ghost use Rattle.std.specs.Prelude.{◌<◌};
ghost use Rattle.bracelet_settle_inner.specs.Shades.{Between, Settles, ShadeSettled};

// A shade to try, of those from low up to but not including high: the one nearest to `near`; with the last of the tries the highest of them; and then the middle one.
fn between(low: u8, high: u8, near: u8, tries: u8) -> u8
    requires { low < high }
    ensures { Between low high tries result }
{
    if tries < 1 {
        return low + (high - low) / 2;
    }
    if tries < 2 {
        return high - 1;
    }
    if near < low {
        return low;
    }
    if high <= near {
        return high - 1;
    }
    near
}

// Puts at place m the least shade from `least` on that makes the reading a bracelet, where `top` makes it one and so does each shade above one that does. `near`
// and the shade beside it are tried first, then whether it is the highest, and only then it is searched for by halves: two or three tests nearly everywhere, and at
// most seven for 16 shades.
pub fn settle(s: &mut [u8], m: usize, least: u8, near: u8, top: u8)
    requires { Settles s.old m least top }
    ensures { ShadeSettled s.old m least top s.new }
{
    let mut low = least;
    let mut high = top;
    let mut tries = 3;
    while low < high {
        let shade = between(low, high, near, tries);
        tries = tries.saturating_sub(1);
        s[m] = shade;
        if bracelet_test_inner::is_bracelet(s) {
            high = shade;
            continue;
        }
        low = shade + 1;
    }
    s[m] = high;
}
