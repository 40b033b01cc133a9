// Whether another record is read of a block of a catalogue, and what is told where none is. No public calls.

#![tactic(auto)]

ghost use Rattle.std.specs.Prelude.{◌+◌, ◌≤◌, length};
ghost use Rattle.record_body_inner.specs.Steps.{Held};
ghost use Rattle.files_end_inner.specs.Room.{end_room};
ghost use Rattle.files_records_end_inner.specs.Says.{EnoughSays, left_of, RecordsStopSays};

use files_spec::{How, Job, Taken};

// The longest record.
const LONGEST: usize = 68;

// Whether a record is read of so many bytes that are left of the block.
pub fn enough(left: usize, last: bool) -> bool
    ensures { EnoughSays last left result }
{
    if last { left != 0 } else { left >= LONGEST }
}

// Behind `used` bytes of good records no other is read of the block.
pub fn finish(job: Job, last: bool, place: usize, used: usize, out: &mut [u8], len: usize) -> Taken
    requires { Held (place + used) × (len + end_room ≤ length out.old) }
    ensures { RecordsStopSays job place used (left_of last) out.old len result out.new }
{
    let after = place + used;
    if last {
        let e = files_end_inner::place_end(job, out, len);
        return Taken {
            how: Ok(How::Over),
            used,
            place: after,
            len: e,
        };
    }
    Taken {
        how: Ok(How::On),
        used,
        place: after,
        len,
    }
}
