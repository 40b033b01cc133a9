// The ring of a good record, written, and what the record is. No public calls.

#![tactic(auto)]

ghost use Rattle.std.specs.Prelude.{◌≡◌, ◌+◌, length};
ghost use Rattle.words.specs.Readings.{Shaded};
ghost use Rattle.record_spec.specs.Layout.{body_length, shown, Marked};
ghost use Rattle.record_spec.specs.Order.{GoodRecord};
ghost use Rattle.record_body_inner.specs.Steps.{Held};
ghost use Rattle.record_spec.specs.Says.{Read};

use record_spec::{HEAD, Kind, Record};

// Writes the ring of a good record of the kind, and answers what it is.
pub fn read_good(kind: Kind, rest: &[u8], start: usize, out: &mut [u8]) -> Record
    requires { Held (start + length rest.now) × (length out.old ≡ 64) × GoodRecord kind rest.now × Marked rest.now kind }
    ensures { Read rest.now start out.old result.n result.k result.kind result.next out.new }
{
    let n = usize::from(rest[2]);
    let k = usize::from(rest[3]);
    let e = HEAD + record_stored_inner::body_length(kind, n, k);
    show(kind, &rest[HEAD..e], k, &mut out[..n]);
    Record {
        n,
        k,
        kind,
        next: start + e,
    }
}

// Writes the sectors that the bytes behind the head hold, in the form of the kind.
fn show(kind: Kind, body: &[u8], k: usize, out: &mut [u8])
    requires { Shaded k × (length body.now ≡ body_length kind (length out.old) k) }
    ensures { out.new ≡ shown kind (length out.old) k body.now }
{
    match kind {
        Kind::Front => out.copy_from_slice(body),
        Kind::Packed => packing_unpack_inner::unpack_into(
            body,
            packing_bits_inner::width_of(k),
            out,
        ),
    }
}
