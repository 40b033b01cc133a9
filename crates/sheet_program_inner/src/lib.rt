// The program of the command for a sheet: it reads its whole input, and writes the sheet that it asks for, target after target. No public calls: no contract can say what
// is read or written.

#![tactic(auto)]

ghost use Rattle.std.specs.Prelude.{◌≤◌, length};
ghost use Rattle.sheet_spec.specs.Says.{target_room};
ghost use Rattle.program_reading_inner.specs.Says.{MostSays};
ghost use Rattle.sheet_program_inner.specs.Says.{SheetReady, AnswerReady};

use program_reading_inner::Most;
use refusal::Refusal;
use sheet_own_inner::RefusedLine;
use sheet_print_inner::{Job, Rings, Stop};
use std::rt::HostRuntime;

// The number of standard error.
const STDERR_FILENO: i32 = 2;

// The number of standard output.
const STDOUT_FILENO: i32 = 1;

// Writes a refusal's line.
fn print_refusal(r: Refusal, buf: &mut [u8]) -> bool
    requires { target_room ≤ length buf.old }
{
    let m = desk_texts_inner::place_refusal(buf, 0, r);
    io::write_all(STDOUT_FILENO, &buf[..m])
}

// Writes the line of a refused line of the input.
fn print_wrong(wrong: RefusedLine, buf: &mut [u8]) -> bool
    requires { target_room ≤ length buf.old }
{
    let m = program_refusal_inner::place_refused_line(wrong.refusal, wrong.line, buf);
    io::write_all(STDOUT_FILENO, &buf[..m])
}

// Writes a sheet that is ready.
fn print_rings(job: Job, input: &[u8], buf: &mut [u8]) -> bool
    requires rings_ready { SheetReady input.now job.sheet job.rings }
    requires target_room_in_bounds { target_room ≤ length buf.old }
{
    match job.rings {
        Rings::Set(places, count) => {
            sheet_write_inner::print_targets(job.sheet, &places, count, buf).is_ok()
        }
        Rings::Own(from, count) => {
            sheet_write_inner::print_lines(job.sheet, &input[from..], count, buf).is_ok()
        }
    }
}

// Writes what was made ready of an input: the sheet, or a refusal's line.
fn print_job(job: Result<Job, Stop>, input: &[u8], buf: &mut [u8]) -> bool
    requires answer_ready { AnswerReady input.now job }
    requires target_room_in_bounds { target_room ≤ length buf.old }
{
    match job {
        Ok(job) => print_rings(job, input, buf),
        Err(Stop::Refused(r)) => print_refusal(r, buf),
        Err(Stop::Wrong(wrong)) => print_wrong(wrong, buf),
    }
}

// Writes what an input prints.
fn print_sheet(input: &[u8], buf: &mut [u8]) -> bool
    requires input_in_bounds { length input.now ≤ length buf.old }
    requires target_room_in_bounds { target_room ≤ length buf.old }
{
    let job = sheet_print_inner::prepare(input, buf);
    print_job(job, input, buf)
}

// The same of what was read; nothing where a read failed or the input is too long.
fn print_input(most: Most, input: &[u8], buf: &mut [u8]) -> bool
    requires most_says { MostSays most input.now }
    requires input_in_bounds { length input.now ≤ length buf.old }
    requires target_room_in_bounds { target_room ≤ length buf.old }
{
    match most {
        Most::Ended(got) => print_sheet(&input[..got], buf),
        Most::Full | Most::Failed => true,
    }
}

// The program: the output for standard input on standard output; on standard error why not all of it, if so.
pub fn run(rt: HostRuntime) {
    let mut input = io::large_buffer();
    let most = program_reading_inner::read_most(&mut rt.stdin(), &mut input);
    let mut buf = io::large_buffer();
    let wrote = print_input(most, &input, &mut buf);
    let ended = program_outcome_inner::whole_ending(most, wrote);
    let k = program_ending_inner::say(ended, &mut buf);
    io::write_all(STDERR_FILENO, &buf[..k]);
}
