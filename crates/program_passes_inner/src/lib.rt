// What the programs share that go through a file on standard input block after block, once or twice. No public calls: no contract can say what is read.
// A block begins where the last whole piece of the one before it ended, and is read from there.

#![tactic(auto)]

ghost use Rattle.std.specs.Prelude.{◌<◌, ◌≡◌, Ok};
ghost use Rattle.program_reading_inner.specs.Says.{MostSays};
ghost use Rattle.std.specs.List.{starts_with};
ghost use Rattle.std.specs.Prelude.{drop, nat_eq};
ghost use Rattle.program_passes_inner.specs.Record.{record_start, mode_said, readable_said};
ghost use Rattle.program_passes_inner.specs.Passes.{limit, failed_of, same_end, part_of, PartSays, course_of, gone_by, goes_further, EndWithin, finish_of, finish_at};

use program_ending_inner::Ending;
use program_reading_inner::Most;
use std::env::{Env, FillError};
use std::fs::{File, OpenOptions};
use std::io::{Read, Seek, SeekFrom};
use std::os::unix::fs::FileTypeExt;
use std::rt::HostRuntime;
use std::{fs, str};

// No file goes so far: 2 to the power 62.
pub const LIMIT: usize = 4611686018427387904;

// What was read to a block: how many bytes, and whether the input ended behind them.
#[derive(Clone, Copy)]
pub struct Part {
    pub len: usize,
    pub last: bool,
}

// What becomes of a block: so many bytes of it are done, and another follows; or all is done with so many bytes of it.
#[derive(Clone, Copy)]
pub enum Turn {
    On(usize),
    Over(usize),
}

// So many bytes of a block are done; where it was the last, that is all.
pub fn turn_by(last: bool, used: usize) -> Turn
    ensures { course_of (Ok result) ≡ gone_by last used }
{
    if last {
        return Turn::Over(used);
    }
    Turn::On(used)
}

// Whether another block is read behind one that began at `at`.
pub fn goes_on(at: usize, turn: Result<Turn, Ending>) -> bool
    requires { at < limit }
    ensures { result ≡ goes_further at (course_of turn) }
{
    match turn {
        Ok(Turn::On(used)) => used < LIMIT - at,
        Ok(Turn::Over(_)) | Err(_) => false,
    }
}

// How a time through the file ended with a block that began at `at`, behind which none is read: at its end, which is at that place; or before it, and why.
pub fn finish(at: usize, turn: Result<Turn, Ending>) -> Result<usize, Ending>
    requires { EndWithin at (course_of turn) }
    ensures { finish_of result ≡ finish_at at (course_of turn) }
{
    match turn? {
        Turn::On(_) => Err(Ending::TooLong),
        Turn::Over(used) => Ok(at + used),
    }
}

// How a run ends where a read fails, the first time through and the second.
pub fn failed(second: bool) -> Ending
    ensures { result ≡ failed_of second }
{
    if second { Ending::Lost } else { Ending::Unread }
}

// What the system's record of standard input begins with where it stands at its beginning.
const BEGINS: [u8; 14] = *b"pos:\t0\nflags:\t";

// What the system's record of standard input begins with, and zeros.
fn record_of_input(rt: &HostRuntime) -> [u8; 32] {
    let mut said = [0u8; 32];
    match File::open(rt, "/proc/self/fdinfo/0") {
        Ok(mut record) => match record.read(&mut said) {
            Ok(_) => said,
            Err(_) => [0; 32],
        },
        Err(_) => [0; 32],
    }
}

// Whether standard input stands at its beginning, as that record says.
fn at_beginning(said: &[u8]) -> bool
    ensures { result ≡ starts_with nat_eq said.now record_start }
{
    said.starts_with(&BEGINS)
}

// The last digit of the flags, behind what the record begins with.
fn mode_of(said: &[u8]) -> u8
    ensures { result ≡ mode_said 0 (drop 14 said.now) }
{
    let Some(flags) = said.get(BEGINS.len()..) else {
        return 0;
    };
    let mut mode = 0;
    for &here in flags {
        if here == b'\n' {
            return mode;
        }
        mode = here;
    }
    0
}

// Whether standard input is open for reading, as that record says: 1 at the end of the flags is writing alone.
fn is_readable(said: &[u8]) -> bool
    ensures { result ≡ readable_said said.now }
{
    mode_of(said) % 4 != 1
}

// Whether standard input can be opened anew: a pipe cannot, and might wait for one who writes to it.
fn is_pipe(rt: &HostRuntime) -> bool {
    match fs::metadata(rt, "/dev/stdin") {
        Ok(of) => of.file_type().is_fifo(),
        Err(_) => true,
    }
}

// A file that is open for writing alone, of which each read fails.
fn open_unreadable(rt: &HostRuntime) -> Option<File> {
    OpenOptions::new().write(true).open(rt, "/dev/null").ok()
}

// Standard input as a file with a place of its own, where it is a file that stands at its beginning. Where it is not open for reading, neither is what stands for it.
fn open_standard(rt: &HostRuntime) -> Option<File> {
    let said = record_of_input(rt);
    if is_pipe(rt) || !at_beginning(&said) {
        return None;
    }
    if !is_readable(&said) {
        return open_unreadable(rt);
    }
    let mut file = File::open(rt, "/dev/stdin").ok()?;
    if !move_to(&mut file, 0) {
        return None;
    }
    Some(file)
}

// The file of that name, which is text.
fn open_named(rt: &HostRuntime, name: &[u8]) -> Option<File> {
    let path = str::from_utf8(name).ok()?;
    File::open(rt, path).ok()
}

// No name of a file is longer.
const MOST_NAME: usize = 4096;

// What a program goes through: the file that its first argument names, or else standard input.
pub fn open_input(rt: &HostRuntime) -> Option<File> {
    let mut name = [0u8; MOST_NAME];
    match rt.arg(1, &mut name) {
        Ok(len) => open_named(rt, &name[..len]),
        Err(FillError::NotPresent) => open_standard(rt),
        Err(FillError::TooLong) => None,
    }
}

// Moves a file to the place `at`, and tells whether it is there.
fn move_to(input: &mut File, at: usize) -> bool {
    let place = at as u64;
    input
        .seek(SeekFrom::Start(place))
        .is_ok_and(|there| there == place)
}

// Reads the input from `at` on until the block is full or the input ends.
pub fn read_from(input: &mut File, at: usize, block: &mut [u8]) -> Most
    requires { at < limit }
    ensures { MostSays result block.new }
{
    if !move_to(input, at) {
        return Most::Failed;
    }
    program_reading_inner::read_most(input, block)
}

// What reading until a block of that room is full gave. Only a read of 0 bytes tells that it is the last.
fn part_of(most: Most, room: usize) -> Option<Part>
    ensures { result ≡ part_of most room }
{
    match most {
        Most::Full => Some(Part {
            len: room,
            last: false,
        }),
        Most::Ended(len) => Some(Part { len, last: true }),
        Most::Failed => None,
    }
}

// Reads a block from `at` on; None where a read failed.
pub fn read_block(input: &mut File, at: usize, block: &mut [u8]) -> Option<Part>
    requires { at < limit }
    ensures { PartSays block.new result }
{
    let most = read_from(input, at, block);
    part_of(most, block.len())
}

// A file that ends elsewhere the second time is not the one that was checked.
pub fn same_end(first: usize, second: usize) -> Ending
    ensures { result ≡ same_end first second }
{
    if first == second {
        Ending::Whole
    } else {
        Ending::Changed
    }
}
