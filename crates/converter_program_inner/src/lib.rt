// The converting program (02, j), for a catalogue of any size. No public calls: no contract can say what is read and written.
// It goes through the file on standard input twice, block after block. The first time it checks the whole; only where that is good it goes through it again, and
// writes.

#![tactic(auto)]

ghost use Rattle.program_passes_inner.specs.Passes.{finish_of};
ghost use Rattle.converter_pass_inner.specs.Says.{BuffersFit};
ghost use Rattle.converter_program_inner.specs.Says.{PassSays, WrittenSays, ThroughSays};

use program_ending_inner::Ending;
use program_passes_inner::Turn;
use std::fs::File;
use std::rt::HostRuntime;

// The number of standard error.
const STDERR_FILENO: i32 = 2;

// Once through the catalogue.
fn go_once(
    input: &mut File,
    writing: bool,
    block: &mut [u8],
    new: &mut [u8],
) -> Result<usize, Ending>
    requires { BuffersFit block.old new.old }
    ensures { PassSays writing (finish_of result) }
{
    let mut at = 0;
    loop {
        let turn = converter_pass_inner::take_at(input, writing, at, block, new);
        match turn {
            Ok(Turn::On(used)) if program_passes_inner::goes_on(at, turn) => at += used,
            _ => return program_passes_inner::finish(at, turn),
        }
    }
}

// The second time, behind a first that went through to the place `end`.
fn write_to(input: &mut File, end: usize, block: &mut [u8], new: &mut [u8]) -> Ending
    requires { BuffersFit block.old new.old }
    ensures { WrittenSays end result }
{
    match go_once(input, true, block, new) {
        Ok(again) => program_passes_inner::same_end(end, again),
        Err(why) => why,
    }
}

// Both times. What does not stand at the beginning of a file cannot be read twice from there.
fn go_through(input: Option<File>, block: &mut [u8], new: &mut [u8]) -> Ending
    requires { BuffersFit block.old new.old }
    ensures { ThroughSays result }
{
    let Some(mut file) = input else {
        return Ending::NoFile;
    };
    match go_once(&mut file, false, block, new) {
        Ok(end) => write_to(&mut file, end, block, new),
        Err(ended) => ended,
    }
}

// The program: the old catalogue from standard input, the new one on standard output; on standard error why not, or why not all of it.
pub fn run(rt: HostRuntime) {
    let mut block = io::large_buffer();
    let mut new = io::large_buffer();
    let input = program_passes_inner::open_input(&rt);
    let ended = go_through(input, &mut block, &mut new);
    let m = program_ending_inner::say(ended, &mut new);
    io::write_all(STDERR_FILENO, &new[..m]);
}
