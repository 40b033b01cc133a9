// A record read: its head and its mark, 7, 8, 16, then what stands behind the mark, and then its ring (`record_ring_inner`). No public calls.

#![tactic(auto)]

ghost use Rattle.std.specs.Prelude.{◌≡◌, ◌+◌, ◌≤◌, length};
ghost use Rattle.record_body_inner.specs.Steps.{Held, RecordSays};
ghost use Rattle.record_head_inner.specs.Mark.{MarkSays};

use record_spec::{FRONT_MARK, HEAD, Kind, MARK, PACKED_MARK, RETIRED_MARK, Record};
use refusal::Refusal;

// The head and the mark: 7, 8, 16; then the record of its kind.
pub fn read_head(rest: &[u8], start: usize, out: &mut [u8]) -> Result<Record, Refusal>
    requires { Held (start + length rest.now) × (length out.old ≡ 64) }
    ensures { RecordSays rest.now start out.old result out.new }
{
    if rest.len() < HEAD {
        return Err(Refusal::Cut(start));
    }
    let kind = marked_kind(rest, start)?;
    record_behind_inner::check_behind(kind, rest, start)?;
    Ok(record_ring_inner::read_good(kind, rest, start, out))
}

// The kind that the mark tells: 8, 16.
fn marked_kind(rest: &[u8], start: usize) -> Result<Kind, Refusal>
    requires { 4 ≤ length rest.now }
    ensures { MarkSays rest.now start result }
{
    if rest[0] != MARK {
        return Err(Refusal::Mark(start));
    }
    match rest[1] {
        FRONT_MARK => Ok(Kind::Front),
        PACKED_MARK => Ok(Kind::Packed),
        RETIRED_MARK => Err(Refusal::Retired(start)),
        _ => Err(Refusal::Mark(start)),
    }
}
