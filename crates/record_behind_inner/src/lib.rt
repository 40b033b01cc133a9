// What stands behind a record's mark, whatever its kind: n and k, whether the bytes of the sectors are all there, and then those bytes: 1, 2, 7, 3, 17, 9. No public calls.

#![tactic(auto)]

ghost use Rattle.std.specs.Prelude.{◌+◌, ◌≤◌, ◌≡◌, length};
ghost use Rattle.words.specs.Readings.{Sized, Shaded};
ghost use Rattle.record_spec.specs.Layout.{body_length};
ghost use Rattle.record_body_inner.specs.Steps.{Held, HeadNumbersSay, BodySays, BehindSays};

use record_spec::{HEAD, Kind};
use refusal::Refusal;

// n and k: 1, 2. The check is that of every call; in a record its refusals have places of their own.
pub fn check_counts(rest: &[u8], start: usize) -> Result<(), Refusal>
    requires { Held (start + length rest.now) × (4 ≤ length rest.now) }
    ensures { HeadNumbersSay rest.now start result }
{
    let n = usize::from(rest[2]);
    let k = usize::from(rest[3]);
    match check_numbers_inner::check_numbers(n, n, k) {
        Err(Refusal::Length(_)) => Err(Refusal::Length(start + 2)),
        Err(_) => Err(Refusal::Shades(start + 3)),
        Ok(()) => Ok(()),
    }
}

// What stands behind the mark of a record of the kind.
pub fn check_behind(kind: Kind, rest: &[u8], start: usize) -> Result<(), Refusal>
    requires { Held (start + length rest.now) × (4 ≤ length rest.now) }
    ensures { BehindSays kind rest.now start result }
{
    check_counts(rest, start)?;
    let n = usize::from(rest[2]);
    let k = usize::from(rest[3]);
    let e = HEAD + record_stored_inner::body_length(kind, n, k);
    if rest.len() < e {
        return Err(Refusal::Cut(start));
    }
    check_bytes(kind, &rest[HEAD..e], start, n, k)
}

// The bytes of the sectors, in the form of the kind.
fn check_bytes(kind: Kind, bytes: &[u8], start: usize, n: usize, k: usize) -> Result<(), Refusal>
    requires { Held (start + (4 + length bytes.now)) × Sized n × Shaded k × (length bytes.now ≡ body_length kind n k) }
    ensures { BodySays kind n k bytes.now start result }
{
    match kind {
        Kind::Front => record_body_inner::check_body(bytes, start, k),
        Kind::Packed => record_packed_body_inner::check_packed_body(bytes, start, n, k),
    }
}
