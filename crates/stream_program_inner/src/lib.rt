// A program that answers each line of standard input by a text on standard output, as soon as it is there: it reads what there is, has the lines that end in it
// answered, writes their texts, and again. No public calls: no contract can say what is read or written.

#![tactic(auto)]

ghost use Rattle.std.specs.Prelude.{◌*◌, ◌≤◌, ◌<◌, ◌≡◌, false, length, take};
ghost use Rattle.stream_kind_inner.specs.Says.{most_of, room_of};
ghost use Rattle.stream_steps_inner.specs.Says.{GoesOn};
ghost use Rattle.stream_program_inner.specs.Says.{RoomForRead, BehindRead, ReadAnswered, PumpSays};

use program_reading_inner::Got;
use std::rt::{HostRuntime, Stdin};
use stream_kind_inner::Kind;
use stream_steps_inner::Behind;

// The number of standard error.
const STDERR_FILENO: i32 = 2;

// The number of standard output.
const STDOUT_FILENO: i32 = 1;

// Behind a turn: what its read gave, whether the texts could be written, and how many bytes of the line under way are held.
#[derive(Clone, Copy)]
pub struct Turned {
    pub got: Got,
    pub wrote: bool,
    pub len: usize,
}

// Where the program stopped: what the last read gave, whether all texts could be written, and how many reads came before.
#[derive(Clone, Copy)]
pub struct Stopped {
    pub got: Got,
    pub wrote: bool,
    pub reads: u64,
}

// What a read gave, taken: the texts that it asks for stand at the beginning of the buffer. Behind bytes those are the texts of the lines that end in them; at the
// end of the input that of a last line without newline; behind a read that failed there are none.
fn place_turn(
    kind: Kind,
    got: Got,
    block: &[u8],
    line: &mut [u8],
    len: usize,
    buf: &mut [u8],
) -> Behind
    requires line_len { length line.old ≡ most_of kind }
    requires len_in_bounds { len ≤ length line.old }
    requires room_for_read { RoomForRead kind got block.now buf.old }
    ensures len_in_bounds_2 { result.len ≤ length line.new }
    ensures behind_read { BehindRead kind got (take len line.old) block.now buf.old (take result.len line.new) result.at buf.new }
{
    match got {
        Got::Bytes(n) => stream_blocks_inner::take_bytes(kind, line, len, &block[..n], buf),
        Got::Over => {
            let at = stream_blocks_inner::place_last(kind, &line[..len], buf);
            Behind { len: 0, at }
        }
        Got::Failed => stream_steps_inner::behind_failure(len),
    }
}

// Reads what there is, and writes the texts that it asks for.
fn turn(
    input: &mut Stdin,
    kind: Kind,
    block: &mut [u8],
    line: &mut [u8],
    len: usize,
    buf: &mut [u8],
) -> Turned
    requires line_len { length line.old ≡ most_of kind }
    requires len_in_bounds { len ≤ length line.old }
    requires block_nonzero { (0 < length block.old) × (length block.old * room_of kind ≤ length buf.old) }
    ensures len_in_bounds_2 { result.len ≤ length line.new }
    ensures read_answered { ReadAnswered kind result.got (take len line.old) block.new buf.old (take result.len line.new) buf.new }
{
    let got = program_reading_inner::read_some(input, block);
    let q = place_turn(kind, got, block, line, len, buf);
    let m = q.at;
    let wrote = io::write_all(STDOUT_FILENO, &buf[..m]);
    Turned {
        got,
        wrote,
        len: q.len,
    }
}

// Turn after turn, each with what the one before it left of the line under way.
fn pump(input: &mut Stdin, kind: Kind, block: &mut [u8], line: &mut [u8], buf: &mut [u8]) -> Stopped
    requires line_len { length line.old ≡ most_of kind }
    requires block_nonzero { (0 < length block.old) × (length block.old * room_of kind ≤ length buf.old) }
    ensures goes_on { GoesOn result.wrote result.got result.reads false }
    ensures pump_says { PumpSays kind result.got result.reads block.new buf.new }
{
    let mut len = 0;
    let mut reads = 0;
    loop {
        let t = turn(input, kind, block, line, len, buf);
        let got = t.got;
        let wrote = t.wrote;
        if !stream_steps_inner::goes_on(got, wrote, reads) {
            return Stopped { got, wrote, reads };
        }
        len = t.len;
        reads += 1;
    }
}

// Zeros, with room for the texts of all that is read at a time.
fn wide_buffer() -> [u8; 1048576]
    ensures { 1048576 ≡ length result }
{
    [0; 1048576]
}

// The program: the texts on standard output; on standard error why not all of them, if so.
pub fn run(rt: HostRuntime, kind: Kind) {
    let mut block = [0u8; 2048];
    let mut line = [0u8; 4096];
    let mut buf = wide_buffer();
    let n = stream_kind_inner::block_length(kind);
    let m = stream_kind_inner::kept_bytes(kind);
    let left = pump(
        &mut rt.stdin(),
        kind,
        &mut block[..n],
        &mut line[..m],
        &mut buf,
    );
    let got = left.got;
    let ended = program_outcome_inner::stream_ending(got, left.wrote);
    let k = program_ending_inner::say(ended, &mut buf);
    io::write_all(STDERR_FILENO, &buf[..k]);
}
