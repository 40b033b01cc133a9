// Where a reading stands on a strip whose end is joined to its start. No public calls: `strip::place_of` checks what these ask for.

#![tactic(auto)]

ghost use Rattle.std.specs.Prelude.{ℕ, ◌≤◌, ◌<◌, ◌≡◌, length};
ghost use Rattle.words.specs.Order.{same};
ghost use Rattle.strip_spec.specs.Places.{window, OnePlace};

// Whether the reading stands at place p.
fn stands(s: &[u8], p: usize, reading: &[u8]) -> bool
    requires p_in_bounds { p < length s.now }
    requires s_len_bound { length s.now ≤ 4096 }
    requires reading_len_bound { length reading.now ≤ 64 }
    ensures { result ≡ same (window (length reading.now) s.now p) reading.now }
{
    for (i, &sector) in reading.iter().enumerate() {
        if s[(p + i) % s.len()] != sector {
            return false;
        }
    }
    true
}

// The one place at which the reading stands.
pub fn place_in(s: &[u8], reading: &[u8]) -> usize
    requires s_len_bound { length s.now ≤ 4096 }
    requires reading_len_bound { length reading.now ≤ 64 }
    requires by_index { (p : ℕ) × OnePlace s.now reading.now p }
    ensures { OnePlace s.now reading.now result }
{
    for p in 0..s.len() {
        if stands(s, p, reading) {
            return p;
        }
    }
    0
}
