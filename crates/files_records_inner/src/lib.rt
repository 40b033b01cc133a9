// The records of a block of a catalogue, one after another, and what they show. No public calls.

#![tactic(auto)]

ghost use Rattle.std.specs.Prelude.{◌+◌, ◌*◌, ◌≤◌, ◌≡◌, length, Err};
ghost use Rattle.record_body_inner.specs.Steps.{Held};
ghost use Rattle.files_spec.specs.Blocks.{TakeSays};
ghost use Rattle.files_text_inner.specs.Room.{record_room};
ghost use Rattle.files_end_inner.specs.Room.{end_room};
ghost use Rattle.files_records_end_inner.specs.Says.{RecordsStopSays};
ghost use Rattle.files_records_inner.specs.Says.{share, RecordStepSays};

use files_spec::{Job, Taken};
use refusal::Refusal;

// The record that `rest` begins with, at a place of the catalogue, and what it shows: how many bytes it was, and the place behind what it shows.
fn take_one(
    job: Job,
    place: usize,
    rest: &[u8],
    ring: &mut [u8],
    out: &mut [u8],
    at: usize,
) -> Result<(usize, usize), Refusal>
    requires held { Held (place + length rest.now) × (length ring.old ≡ 64) }
    requires record_room_in_bounds { at + record_room ≤ length out.old }
    ensures { RecordStepSays job place rest.now out.old at result out.new }
{
    let found = record_head_inner::read_head(rest, place, ring)?;
    let e = files_text_inner::place_record(job, place, found, &ring[..found.n], out, at);
    Ok((found.next - place, e))
}

// Behind `used` bytes of good records one is refused.
fn stop(job: Job, r: Refusal, place: usize, used: usize, out: &mut [u8], len: usize) -> Taken
    requires { Held (place + used) × (len + end_room ≤ length out.old) }
    ensures { RecordsStopSays job place used (Err r) out.old len result out.new }
{
    let e = files_end_inner::place_damage(job, r, out, len);
    Taken {
        how: Err(r),
        used,
        place: place + used,
        len: e,
    }
}

// A block, for which there is room: what its records show stands at the beginning of the output.
pub fn take_records(job: Job, place: usize, block: &[u8], last: bool, out: &mut [u8]) -> Taken
    requires held { Held (place + length block.now) }
    requires record_room_in_bounds { length block.now * share + record_room ≤ length out.old }
    ensures { TakeSays job place block.now last out.old result out.new }
{
    let mut ring = [0u8; 64];
    let mut i = 0;
    let mut len = 0;
    while files_records_end_inner::enough(block.len() - i, last) {
        match take_one(job, place + i, &block[i..], &mut ring, out, len) {
            Ok((m, e)) => {
                i += m;
                len = e;
            }
            Err(r) => return stop(job, r, place, i, out, len),
        }
    }
    files_records_end_inner::finish(job, last, place, i, out, len)
}
