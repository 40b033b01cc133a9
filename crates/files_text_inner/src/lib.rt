// What a record of a catalogue shows, placed into a lent buffer. No public calls.

#![tactic(auto)]

ghost use Rattle.std.specs.Prelude.{◌+◌, ◌≤◌, ◌≡◌, length};
ghost use Rattle.text_spec.specs.Put.{Placed};
ghost use Rattle.stream_spec.specs.Blocks.{Puts};
ghost use Rattle.files_spec.specs.Shows.{other_kind, record_line, Filled, Shows};
ghost use Rattle.files_text_inner.specs.Room.{record_room, PassedRing};

use files_spec::Job;
use record_spec::{Kind, Record};

// The other form.
fn other(kind: Kind) -> Kind
    ensures { result ≡ other_kind kind }
{
    match kind {
        Kind::Front => Kind::Packed,
        Kind::Packed => Kind::Front,
    }
}

// The line of a record.
fn place_line(at_record: usize, record: Record, ring: &[u8], buf: &mut [u8], at: usize) -> usize
    requires answered { PassedRing record.n record.k ring.now }
    requires record_room_in_bounds { at + record_room ≤ length buf.old }
    ensures { Placed buf.old at (record_line at_record record.kind record.n record.k ring.now) result buf.new }
{
    let n = record.n;
    let numbers = [at_record, n, record.k];
    match record.kind {
        Kind::Front => text_fill_inner::place_filled(
            buf,
            at,
            b"% front % % @\n",
            &numbers,
            n,
            ring,
        ),
        Kind::Packed => {
            text_fill_inner::place_filled(buf, at, b"% packed % % @\n", &numbers, n, ring)
        }
    }
}

// The bytes of the record of a ring. A ring that passes the checks is not refused where there is room.
pub fn place_bytes(k: usize, kind: Kind, ring: &[u8], buf: &mut [u8], at: usize) -> usize
    requires answered { PassedRing (length ring.now) k ring.now }
    requires record_room_in_bounds { at + record_room ≤ length buf.old }
    ensures { Puts (Filled ring.now k kind) record_room buf.old at result buf.new }
{
    writer::write_record(ring, k, kind, buf, at).unwrap_or(at)
}

// What a record shows that stands at `at_record`, where the reader answered it and its ring.
pub fn place_record(
    job: Job,
    at_record: usize,
    record: Record,
    ring: &[u8],
    buf: &mut [u8],
    at: usize,
) -> usize
    requires answered { PassedRing record.n record.k ring.now }
    requires record_room_in_bounds { at + record_room ≤ length buf.old }
    ensures { Puts (Shows job at_record record.n record.k record.kind ring.now) record_room buf.old at result buf.new }
{
    match job {
        Job::Read => place_line(at_record, record, ring, buf, at),
        Job::Move => place_bytes(record.k, other(record.kind), ring, buf, at),
    }
}
