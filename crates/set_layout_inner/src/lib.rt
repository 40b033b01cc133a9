// The rings of a set written end to end. No public calls: `sets::lay_out` checks what this asks for.

#![tactic(auto)]

ghost use Rattle.std.specs.Prelude.{◌≡◌, ◌≤◌, ◌*◌, length};
ghost use Rattle.set_spec.specs.Places.{set_in};
ghost use Rattle.set_layout_spec.specs.Layout.{end_to_end};

// The sectors of a place.
const SECTORS: usize = 24;

// Writes the readings of n sectors in the first `taken` places one after another.
pub fn write_rings(places: &[u8], n: usize, taken: usize, out: &mut [u8])
    requires { (length places.now ≡ 768) × (n ≤ 24) × (taken ≤ 32) × (length out.old ≡ n * taken) }
    ensures { out.new ≡ end_to_end (set_in n places.now taken) }
{
    for j in 0..taken {
        let from = SECTORS * j;
        let at = n * j;
        out[at..at + n].copy_from_slice(&places[from..from + n]);
    }
}
