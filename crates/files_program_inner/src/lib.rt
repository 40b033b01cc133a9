// The programs that go through a file whole. No public calls: no contract can say what is read and written.
// They go through the file on standard input block after block. A telling goes through it once, and writes as it goes; a program that writes nothing where the file is
// bad goes through it twice, and writes the second time.

#![tactic(auto)]

ghost use Rattle.std.specs.Prelude.{◌≡◌, true, false};
ghost use Rattle.program_passes_inner.specs.Passes.{finish_of};
ghost use Rattle.files_pass_inner.specs.Says.{RoomyFile};
ghost use Rattle.files_program_inner.specs.Says.{once_for, FilePassSays, FileWrittenSays, FileThroughSays};

use files_spec::Job;
use files_time_inner::Time;
use program_ending_inner::Ending;
use program_passes_inner::Turn;
use std::fs::File;
use std::rt::HostRuntime;

// The number of standard error.
const STDERR_FILENO: i32 = 2;

// Once through the file.
fn go_once(
    input: &mut File,
    job: Job,
    time: Time,
    block: &mut [u8],
    out: &mut [u8],
) -> Result<usize, Ending>
    requires { RoomyFile block.old out.old }
    ensures { FilePassSays job time (finish_of result) }
{
    let mut at = 0;
    loop {
        let turn = files_pass_inner::take_at(input, job, time, at, block, out);
        match turn {
            Ok(Turn::On(used)) if program_passes_inner::goes_on(at, turn) => at += used,
            _ => return program_passes_inner::finish(at, turn),
        }
    }
}

// The only time.
fn go_only(input: &mut File, job: Job, block: &mut [u8], out: &mut [u8]) -> Ending
    requires roomy_file { RoomyFile block.old out.old }
    requires job_value { once_for job ≡ true }
    ensures { FileThroughSays job result }
{
    match go_once(input, job, Time::Only, block, out) {
        Ok(_) => Ending::Whole,
        Err(why) => why,
    }
}

// The second time, behind a first that went through to the place `end`.
fn go_again(input: &mut File, job: Job, end: usize, block: &mut [u8], out: &mut [u8]) -> Ending
    requires { RoomyFile block.old out.old }
    ensures { FileWrittenSays job end result }
{
    match go_once(input, job, Time::Second, block, out) {
        Ok(again) => program_passes_inner::same_end(end, again),
        Err(why) => why,
    }
}

// Both times.
fn go_twice(input: &mut File, job: Job, block: &mut [u8], out: &mut [u8]) -> Ending
    requires roomy_file { RoomyFile block.old out.old }
    requires job_value { once_for job ≡ false }
    ensures { FileThroughSays job result }
{
    match go_once(input, job, Time::First, block, out) {
        Ok(end) => go_again(input, job, end, block, out),
        Err(why) => why,
    }
}

// As often as the job asks. What does not stand at the beginning of a file cannot be read from there.
fn go_through(input: Option<File>, job: Job, block: &mut [u8], out: &mut [u8]) -> Ending
    requires { RoomyFile block.old out.old }
    ensures { FileThroughSays job result }
{
    let Some(mut file) = input else {
        return Ending::NoFile;
    };
    match job {
        Job::Read => go_only(&mut file, job, block, out),
        Job::Move => go_twice(&mut file, job, block, out),
    }
}

// The program: the file from standard input, what it shows on standard output; on standard error why not, or why not all of it.
pub fn run(rt: HostRuntime, job: Job) {
    let mut block = [0u8; 2048];
    let mut out = io::large_buffer();
    let input = program_passes_inner::open_input(&rt);
    let ended = go_through(input, job, &mut block, &mut out);
    let m = program_ending_inner::say(ended, &mut out);
    io::write_all(STDERR_FILENO, &out[..m]);
}
