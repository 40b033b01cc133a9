// The text of a set placed into a lent buffer where it fits (02, g). No public calls: crate `set_output` sees to the room.

#![tactic(auto)]

ghost use Rattle.std.specs.Prelude.{◌+◌, ◌≤◌, ◌++◌, length};
ghost use Rattle.text_spec.specs.Put.{Placed};
ghost use Rattle.set_spec.specs.Places.{set_in};
ghost use Rattle.set_text_spec.specs.Text.{ring_text, ring_texts, taken_text};
ghost use Rattle.set_text_spec.specs.Prints.{set_room};
ghost use Rattle.set_text_inner.specs.Says.{Rings};

// The sectors of a place.
const SECTORS: usize = 24;

// A ring's line.
fn place_ring(buf: &mut [u8], at: usize, ring: &[u8]) -> usize
    requires { at + length (ring_text ring.now) ≤ length buf.old }
    ensures { Placed buf.old at (ring_text ring.now) result buf.new }
{
    let a = text_digits_inner::place_sectors(buf, at, ring);
    text_digits_inner::place_text(buf, a, b"\n")
}

// One ring a line.
fn place_rings(buf: &mut [u8], places: &[u8], n: usize, taken: usize) -> usize
    requires rings { Rings places.now n taken }
    requires set_room_in_bounds { set_room ≤ length buf.old }
    ensures { Placed buf.old 0 (ring_texts (set_in n places.now taken)) result buf.new }
{
    let mut at = 0;
    for j in 0..taken {
        let from = SECTORS * j;
        at = place_ring(buf, at, &places[from..from + n]);
    }
    at
}

// The last line.
fn place_taken(buf: &mut [u8], at: usize, taken: usize, full: bool) -> usize
    requires { at + length (taken_text taken full) ≤ length buf.old }
    ensures { Placed buf.old at (taken_text taken full) result buf.new }
{
    let a = text_digits_inner::place_text(buf, at, b"taken ");
    let b = text_digits_inner::place_decimal(buf, a, taken);
    if full {
        return text_digits_inner::place_text(buf, b, b" full\n");
    }
    text_digits_inner::place_text(buf, b, b" not full\n")
}

// The whole text of the set in the first places.
pub fn place_set(buf: &mut [u8], places: &[u8], n: usize, taken: usize, full: bool) -> usize
    requires rings { Rings places.now n taken }
    requires set_room_in_bounds { set_room ≤ length buf.old }
    ensures { Placed buf.old 0 (ring_texts (set_in n places.now taken) ++ taken_text taken full) result buf.new }
{
    let at = place_rings(buf, places, n, taken);
    place_taken(buf, at, taken, full)
}
