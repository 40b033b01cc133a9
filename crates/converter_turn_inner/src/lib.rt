// A good old catalogue written as front records, record by record. No public calls: `converter` checks what these ask for.

#![tactic(auto)]

ghost use Rattle.std.specs.Prelude.{◌≡◌, ◌<◌, length};
ghost use Rattle.converter_spec.specs.Converts.{Sound, Turned};
ghost use Rattle.converter_turn_inner.specs.Fronts.{Fronted};

use record_spec::{FRONT_MARK, HEAD, RETIRED_MARK};

// Every record, each at its own place.
pub fn write_all(old: &[u8], out: &mut [u8])
    requires { Sound old.now × (length out.old ≡ length old.now) }
    ensures { Turned old.now out.new }
{
    // by hand: where the next record begins is told by the record itself, so no range and no iterator gives the places
    let mut at = 0;
    while at < old.len() {
        let e = at + HEAD + usize::from(old[at + 2]);
        put_front(&old[at..e], &mut out[at..e]);
        at = e;
    }
}

// One record: a front record as it is, a back record under the front mark and with its ring turned over.
fn put_front(part: &[u8], out: &mut [u8])
    requires { (4 < length part.now) × (length out.old ≡ length part.now) }
    ensures { Fronted part.now out.new }
{
    out.copy_from_slice(part);
    if part[1] == RETIRED_MARK {
        out[1] = FRONT_MARK;
        converter_sides_inner::turn_over(&part[HEAD..], &mut out[HEAD..]);
    }
}
