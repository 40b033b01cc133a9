// The bytes that a record stores of a ring, behind its head, written where they are to stand. No public calls: the callers check what this asks for.

#![tactic(auto)]

ghost use Rattle.std.specs.Prelude.{◌≡◌, ◌<◌, ◌≤◌, length};
ghost use Rattle.words.specs.Readings.{Sized, Shaded};
ghost use Rattle.rings.specs.Home.{home};
ghost use Rattle.refusal.specs.Order.{Passed};
ghost use Rattle.refusal.specs.Calls.{one_reading};
ghost use Rattle.record_spec.specs.declared.Kind.TheVariants.{Packed};
ghost use Rattle.record_spec.specs.Layout.{body_length, stored};

use record_spec::Kind;

// How many bytes they are: at most one a sector.
pub fn body_length(kind: Kind, n: usize, k: usize) -> usize
    requires { Sized n × Shaded k }
    ensures length { result ≡ body_length kind n k }
    ensures few { result ≤ 64 }
{
    match kind {
        Kind::Front => n,
        Kind::Packed => packing_bits_inner::packed_length(packing_bits_inner::width_of(k), n),
    }
}

// Writes them.
pub fn put_body(reading: &[u8], k: usize, kind: Kind, out: &mut [u8])
    requires { Passed (one_reading reading.now k) × (length out.old ≡ body_length kind (length reading.now) k) }
    ensures { out.new ≡ stored kind k (home reading.now) }
{
    match kind {
        Kind::Front => put_home(reading, out),
        Kind::Packed => put_packed(reading, k, out),
    }
}

// Writes the home reading, with no second copy.
fn put_home(reading: &[u8], out: &mut [u8])
    requires { (0 < length reading.now) × (length out.old ≡ length reading.now) }
    ensures { out.new ≡ home reading.now }
{
    home_turns_inner::write_turn(reading, home_shift_inner::least_shift(reading), out);
}

// Writes the home reading packed.
fn put_packed(reading: &[u8], k: usize, out: &mut [u8])
    requires { Passed (one_reading reading.now k) × (length out.old ≡ body_length Packed (length reading.now) k) }
    ensures { out.new ≡ stored Packed k (home reading.now) }
{
    let mut room = [0u8; 64];
    let ring = &mut room[..reading.len()];
    put_home(reading, ring);
    packing_pack_inner::pack_into(ring, packing_bits_inner::width_of(k), out);
}
