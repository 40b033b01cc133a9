// The checks of one record of an old catalogue: 7, 8, and then what stands behind the mark, as in a record of today. No public calls.

#![tactic(auto)]

ghost use Rattle.std.specs.Prelude.{◌+◌, length};
ghost use Rattle.record_body_inner.specs.Steps.{Held};
ghost use Rattle.converter_check_inner.specs.Old.{OldSays};

use record_spec::{FRONT_MARK, HEAD, Kind, MARK, RETIRED_MARK};
use refusal::Refusal;

// The record that `rest` begins with, at `start` of the catalogue.
pub fn check_old(rest: &[u8], start: usize) -> Result<(), Refusal>
    requires { Held (start + length rest.now) }
    ensures { OldSays rest.now start result }
{
    if rest.len() < HEAD {
        return Err(Refusal::Cut(start));
    }
    if rest[0] != MARK {
        return Err(Refusal::Mark(start));
    }
    match rest[1] {
        FRONT_MARK | RETIRED_MARK => record_behind_inner::check_behind(Kind::Front, rest, start),
        _ => Err(Refusal::Mark(start)),
    }
}
