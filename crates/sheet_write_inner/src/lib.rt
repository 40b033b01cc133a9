// The targets of a sheet that is ready, written on standard output one after another. No public calls: no contract can say what is written.

#![tactic(auto)]

ghost use Rattle.std.specs.Prelude.{◌≤◌, length};
ghost use Rattle.stream_spec.specs.Lines.{lines};
ghost use Rattle.sheet_spec.specs.Says.{target_room};
ghost use Rattle.sheet_print_inner.specs.Says.{ReadySet, ReadyOwn};
ghost use Rattle.sheet_write_inner.specs.Says.{AllWritten};

use sheet_spec::Sheet;

// The number of standard output.
const STDOUT_FILENO: i32 = 1;

// Writes each target of a sheet that is ready, in order, and answers how many. Where a write fails, nothing more is written: then it answers how many were before.
// by hand: the place goes with the count that is told, by which the contract refuses a target that is left out.
pub fn print_targets(
    sheet: Sheet,
    places: &[u8],
    count: usize,
    buf: &mut [u8],
) -> Result<usize, usize>
    requires ready_set { ReadySet sheet places.now count }
    requires target_room_in_bounds { target_room ≤ length buf.old }
    ensures { AllWritten result count }
{
    let mut i = 0;
    while i < count {
        let m = sheet_places_inner::place_step(sheet, places, count, i, buf);
        if !io::write_all(STDOUT_FILENO, &buf[..m]) {
            return Err(i);
        }
        i += 1;
    }
    Ok(i)
}

// The same of rings of one's own, which are the lines of a text.
pub fn print_lines(sheet: Sheet, text: &[u8], count: usize, buf: &mut [u8]) -> Result<usize, usize>
    requires ready_own { ReadyOwn sheet (lines text.now) count }
    requires target_room_in_bounds { target_room ≤ length buf.old }
    ensures { AllWritten result count }
{
    let mut at = 0;
    let mut j = 0;
    while j < count {
        let step = sheet_own_target_inner::place_next(sheet, text, at, j, count, buf);
        let m = step.length;
        if !io::write_all(STDOUT_FILENO, &buf[..m]) {
            return Err(j);
        }
        at = step.next;
        j += 1;
    }
    Ok(j)
}
