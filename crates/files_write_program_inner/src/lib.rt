// The programs that write a catalogue from lines, a ring each. No public calls: no contract can say what is read and written.
// They go through the lines on standard input twice: the first time each is checked, and nothing is written; the second time the records are written, block after block.

#![tactic(auto)]

ghost use Rattle.std.specs.Prelude.{◌+◌, ◌*◌, ◌<◌, ◌≤◌, ◌≡◌, length, take};
ghost use Rattle.program_passes_inner.specs.Passes.{limit};
ghost use Rattle.files_text_inner.specs.Room.{record_room};
ghost use Rattle.files_write_spec.specs.RingLines.{most_kept};
ghost use Rattle.files_write_byte_inner.specs.Says.{most_ended};
ghost use Rattle.files_write_program_inner.specs.Says.{RoomyLines, LineTurnSays, LineLastSays, LineAtSays, LinePassSays, LineWrittenSays, LineThroughSays};

use files_write_ending_inner::{Ended, Time};
use program_ending_inner::Ending;
use program_passes_inner::LIMIT;
use program_reading_inner::Most;
use record_spec::Kind;
use std::fs::File;
use std::rt::HostRuntime;

// The number of standard error.
const STDERR_FILENO: i32 = 2;

// A block that was taken: how many bytes of it are done, how many are held of the line under way, and how many lines have ended.
#[derive(Clone, Copy)]
pub struct Gone {
    pub used: usize,
    pub len: usize,
    pub lines: usize,
}

// What was read of the input.
fn take_block(
    kind: Kind,
    time: Time,
    block: &[u8],
    line: &mut [u8],
    len: usize,
    lines: usize,
    out: &mut [u8],
) -> Result<Option<Gone>, Ended>
    requires line_len { length line.old ≡ most_kept }
    requires len_in_bounds { len ≤ length line.old }
    requires record_room_in_bounds { length block.now * record_room ≤ length out.old }
    requires block_bound { lines + length block.now < most_ended }
    ensures { LineTurnSays kind time (take len line.old) block.now lines out.old result line.new out.new }
{
    match files_write_inner::take_bytes(kind, line, len, block, out, lines) {
        Err(bad) => Err(files_write_ending_inner::refused(time, bad.why, bad.number)),
        Ok(lined) => {
            if !files_write_ending_inner::hand_on(time, &out[..lined.at]) {
                return Err(Ended::As(Ending::Unwritten));
            }
            Ok(Some(Gone {
                used: block.len(),
                len: lined.len,
                lines: lined.lines,
            }))
        }
    }
}

// The end of the input.
fn take_end(
    kind: Kind,
    time: Time,
    line: &[u8],
    lines: usize,
    out: &mut [u8],
) -> Result<Option<Gone>, Ended>
    requires record_room_in_bounds { record_room ≤ length out.old }
    requires lines_lt_most_ended { lines < most_ended }
    ensures { LineLastSays kind time line.now lines out.old result out.new }
{
    match files_write_byte_inner::take_last(kind, line, out, lines) {
        Err(bad) => Err(files_write_ending_inner::refused(time, bad.why, bad.number)),
        Ok(lined) => {
            if !files_write_ending_inner::hand_on(time, &out[..lined.at]) {
                return Err(Ended::As(Ending::Unwritten));
            }
            Ok(None)
        }
    }
}

// Reads a block from `at` on, and takes it. Only a read of 0 bytes tells that the input is over.
fn take_at(
    input: &mut File,
    kind: Kind,
    time: Time,
    at: usize,
    block: &mut [u8],
    line: &mut [u8],
    len: usize,
    lines: usize,
    out: &mut [u8],
) -> Result<Option<Gone>, Ended>
    requires at_lt_limit { at < limit }
    requires roomy_lines { RoomyLines block.old line.old out.old }
    requires len_in_bounds { len ≤ length line.old }
    requires lines_le_at { lines ≤ at }
    ensures { LineAtSays kind time (take len line.old) block.new lines out.old result line.new out.new }
{
    match program_passes_inner::read_from(input, at, block) {
        Most::Failed => Err(files_write_ending_inner::failed(time)),
        Most::Full => take_block(kind, time, block, line, len, lines, out),
        Most::Ended(got) => {
            if got == 0 {
                return take_end(kind, time, &line[..len], lines, out);
            }
            take_block(kind, time, &block[..got], line, len, lines, out)
        }
    }
}

// Once through the input.
fn go_once(
    input: &mut File,
    kind: Kind,
    time: Time,
    block: &mut [u8],
    line: &mut [u8],
    out: &mut [u8],
) -> Result<usize, Ended>
    requires { RoomyLines block.old line.old out.old }
    ensures { LinePassSays kind time result }
{
    let mut at = 0;
    let mut len = 0;
    let mut lines = 0;
    while at < LIMIT {
        let Some(gone) = take_at(input, kind, time, at, block, line, len, lines, out)? else {
            return Ok(at);
        };
        at += gone.used;
        len = gone.len;
        lines = gone.lines;
    }
    Err(Ended::As(Ending::TooLong))
}

// The second time, behind a first that went through to the place `end`.
fn go_again(
    input: &mut File,
    kind: Kind,
    end: usize,
    block: &mut [u8],
    line: &mut [u8],
    out: &mut [u8],
) -> Ended
    requires { RoomyLines block.old line.old out.old }
    ensures { LineWrittenSays kind end result }
{
    match go_once(input, kind, Time::Second, block, line, out) {
        Ok(again) => Ended::As(program_passes_inner::same_end(end, again)),
        Err(t) => t,
    }
}

// Both times. What does not stand at the beginning of a file cannot be read from there.
fn go_through(
    input: Option<File>,
    kind: Kind,
    block: &mut [u8],
    line: &mut [u8],
    out: &mut [u8],
) -> Ended
    requires { RoomyLines block.old line.old out.old }
    ensures { LineThroughSays kind result }
{
    let Some(mut file) = input else {
        return Ended::As(Ending::NoFile);
    };
    match go_once(&mut file, kind, Time::First, block, line, out) {
        Ok(end) => go_again(&mut file, kind, end, block, line, out),
        Err(t) => t,
    }
}

// The program: the lines from standard input, their records on standard output; on standard error why not, or why not all of them.
pub fn run(rt: HostRuntime, kind: Kind) {
    let mut block = [0u8; 468];
    let mut line = [0u8; 4096];
    let mut out = io::large_buffer();
    let input = program_passes_inner::open_input(&rt);
    let ended = go_through(input, kind, &mut block, &mut line, &mut out);
    let m = files_write_ending_inner::say_ended(ended, &mut out);
    io::write_all(STDERR_FILENO, &out[..m]);
}
