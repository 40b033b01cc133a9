// Reading standard input, with a read that failed told apart from the end of the input. No public calls: no contract can say what is read.

#![tactic(auto)]

ghost use Rattle.std.specs.Prelude.{◌≡◌, length};
ghost use Rattle.program_reading_inner.specs.Says.{Moved, told_of, GotSays, ended_of, MostSays};

use std::io::Read;

// What a read gave: so many bytes, at least one; the end of the input; or that it failed.
#[derive(Clone, Copy)]
pub enum Got {
    Bytes(usize),
    Over,
    Failed,
}

// What reading until a buffer is full gave: it is full; or the input ended behind so many bytes; or a read failed.
#[derive(Clone, Copy)]
pub enum Most {
    Full,
    Ended(usize),
    Failed,
}

// What the system's answer to a read says.
fn told(got: isize, block: &[u8]) -> Got
    requires { Moved (length block.now) got }
    ensures { result ≡ told_of got }
{
    if got < 0 {
        return Got::Failed;
    }
    let n = io::count(got, block);
    if n == 0 {
        return Got::Over;
    }
    Got::Bytes(n)
}

// The system's answer to a read: how many bytes it gave, or -1 where it failed.
fn answer_of<R: Read>(input: &mut R, block: &mut [u8]) -> isize
    ensures { Moved (length block.new) result }
{
    match input.read(block) {
        Ok(n) => n as isize,
        Err(_) => -1,
    }
}

// Reads what is there, as soon as something is.
pub fn read_some<R: Read>(input: &mut R, block: &mut [u8]) -> Got
    ensures { GotSays result block.new }
{
    let got = answer_of(input, block);
    told(got, block)
}

// What a read behind `at` bytes says where it gave none: only one of 0 bytes is the end.
fn ended(got: Got, at: usize) -> Most
    ensures { result ≡ ended_of got at }
{
    match got {
        Got::Bytes(_) => Most::Failed,
        Got::Over => Most::Ended(at),
        Got::Failed => Most::Failed,
    }
}

// Reads until there is no more room or the input is over. Each read gives a byte or is the last, so that this ends by itself.
pub fn read_most<R: Read>(input: &mut R, buf: &mut [u8]) -> Most
    ensures { MostSays result buf.new }
{
    let mut at = 0;
    while at < buf.len() {
        let got = read_some(input, &mut buf[at..]);
        let Got::Bytes(n) = got else {
            return ended(got, at);
        };
        at += n;
    }
    Most::Full
}
