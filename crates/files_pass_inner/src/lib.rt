// What becomes of a block of a catalogue, by what the file is gone through for, and by which time it is. No public calls: no contract can say what is read and written.

#![tactic(auto)]

ghost use Rattle.std.specs.Prelude.{◌<◌, ◌≡◌};
ghost use Rattle.program_passes_inner.specs.Passes.{limit, course_of};
ghost use Rattle.files_pass_inner.specs.Says.{RoomyFile, SmallFile, turn_of, FileTurnSays, FileAtSays};

use files_spec::{How, Job};
use files_time_inner::Time;
use program_ending_inner::Ending;
use program_passes_inner::Turn;
use refusal::Refusal;
use std::fs::File;

// The number of standard output.
const STDOUT_FILENO: i32 = 1;

// What becomes of a block that was gone through.
fn turn_of(time: Time, how: Result<How, Refusal>, used: usize) -> Result<Turn, Ending>
    ensures { course_of result ≡ turn_of time how used }
{
    match how {
        Ok(How::On) => Ok(Turn::On(used)),
        Ok(How::Over) => Ok(Turn::Over(used)),
        Err(r) => Err(files_time_inner::refused(time, r)),
    }
}

// A block that begins at `at` of the file.
fn take_block(
    job: Job,
    time: Time,
    at: usize,
    block: &[u8],
    last: bool,
    out: &mut [u8],
) -> Result<Turn, Ending>
    requires at_lt_limit { at < limit }
    requires small_file { SmallFile block.now out.old }
    ensures { FileTurnSays job time at block.now last out.new (course_of result) }
{
    let taken = files_records_inner::take_records(job, at, block, last, out);
    if files_time_inner::writes(time) && !io::write_all(STDOUT_FILENO, &out[..taken.len]) {
        return Err(Ending::Unwritten);
    }
    turn_of(time, taken.how, taken.used)
}

// Reads a block from `at` on, and goes through it.
pub fn take_at(
    input: &mut File,
    job: Job,
    time: Time,
    at: usize,
    block: &mut [u8],
    out: &mut [u8],
) -> Result<Turn, Ending>
    requires at_lt_limit { at < limit }
    requires roomy_file { RoomyFile block.old out.old }
    ensures { FileAtSays job time at block.new out.new (course_of result) }
{
    let Some(part) = program_passes_inner::read_block(input, at, block) else {
        return Err(files_time_inner::failed(time));
    };
    take_block(job, time, at, &block[..part.len], part.last, out)
}
