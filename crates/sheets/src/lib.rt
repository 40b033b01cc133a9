// Sheets of targets, target after target, as SVG text.

#![tactic(auto)]

ghost use Rattle.refusal.specs.Order.{CheckSays};
ghost use Rattle.sheet_spec.specs.Layout.{FitsPage};
ghost use Rattle.sheet_spec.specs.Says.{sheet_order, TargetSays};
ghost use Rattle.sheets.specs.Says.{FitSays};

pub use picture_spec::Tone;
use refusal::Refusal;
pub use sheet_spec::{Sheet, Source};

// No text of a target is longer.
const ROOM: usize = 18432;

// Whether targets of that size fit on a page in so many columns.
fn fitting(size: usize, columns: usize) -> bool
    ensures { FitSays size columns result }
{
    10 <= size && size <= 196 && 1 <= columns && columns <= 210 / (size + 14)
}

// The checks of a target, for a buffer of `room` bytes: for a caller that will have all of a sheet or nothing.
pub fn check_target(sheet: Sheet, ring: &[u8], i: usize, room: usize) -> Result<(), Refusal>
    ensures { CheckSays (sheet_order sheet ring.now i room) result }
{
    check_readings_inner::check_reading(ring, sheet.k)?;
    if ring.len() != sheet.n {
        return Err(Refusal::Pair);
    }
    if 999999 < i {
        return Err(Refusal::TooMany);
    }
    if !fitting(sheet.size, sheet.columns) {
        return Err(Refusal::Room);
    }
    if room < ROOM {
        return Err(Refusal::Room);
    }
    Ok(())
}

// Writes target i of a sheet to the beginning of the buffer, with the beginning and the end of its page where they fall there, and answers how long that is; `last`
// says that it is the last of all. Or refusal 1, 2, 3, 10, 12 or 4.
pub fn target(
    sheet: Sheet,
    ring: &[u8],
    i: usize,
    last: bool,
    buf: &mut [u8],
) -> Result<usize, Refusal>
    ensures { TargetSays sheet ring.now i last buf.old result buf.new }
{
    check_target(sheet, ring, i, buf.len())?;
    Ok(sheet_inner::place_target(buf, sheet, i, last, ring))
}
