// A record written at the front of a part of a buffer, which has room for it: its head, and its sectors behind it, in either form. No public calls: `writer` checks what these
// ask for.

#![tactic(auto)]

ghost use Rattle.std.specs.Prelude.{◌≡◌, ◌+◌, ◌≤◌, length};
ghost use Rattle.refusal.specs.Order.{Passed};
ghost use Rattle.refusal.specs.Calls.{one_reading};
ghost use Rattle.record_spec.specs.Layout.{second_byte, body_length};
ghost use Rattle.record_spec.specs.Writes.{RecordPlaced};
ghost use Rattle.record_put_inner.specs.Head.{headed};

use record_spec::{FRONT_MARK, HEAD, Kind, MARK, PACKED_MARK};

// Writes the record to the front of `rest`.
pub fn put_record(reading: &[u8], k: usize, kind: Kind, rest: &mut [u8])
    requires { Passed (one_reading reading.now k) × (4 + body_length kind (length reading.now) k ≤ length rest.old) }
    ensures { RecordPlaced reading.now k kind rest.old rest.new }
{
    let n = reading.len();
    let e = HEAD + record_stored_inner::body_length(kind, n, k);
    put_head(rest, second_byte(kind), n, k);
    record_stored_inner::put_body(reading, k, kind, &mut rest[HEAD..e]);
}

// Writes the head: the mark, n and k.
fn put_head(rest: &mut [u8], second: u8, n: usize, k: usize)
    requires { (4 ≤ length rest.old) × (n ≤ 64) × (k ≤ 16) }
    ensures { rest.new ≡ headed rest.old second n k }
{
    rest[..HEAD].copy_from_slice(&[MARK, second, n as u8, k as u8]);
}

// The second byte of the mark.
fn second_byte(kind: Kind) -> u8
    ensures { result ≡ second_byte kind }
{
    match kind {
        Kind::Front => FRONT_MARK,
        Kind::Packed => PACKED_MARK,
    }
}
