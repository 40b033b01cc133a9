// The program of the command for one target: it reads a line, and writes the picture that it asks for. No public calls: no contract can say what is read or written.

#![tactic(auto)]

ghost use Rattle.std.specs.Prelude.{◌≤◌, length};
ghost use Rattle.picture_spec.specs.Says.{picture_room};
ghost use Rattle.program_reading_inner.specs.Says.{MostSays};
ghost use Rattle.picture_program_inner.specs.Says.{PictureInputSays};

use program_reading_inner::Most;
use std::rt::HostRuntime;

// The number of standard error.
const STDERR_FILENO: i32 = 2;

// The number of standard output.
const STDOUT_FILENO: i32 = 1;

// The output for an input of which that was read; none where a read failed or the input is too long. `w` lends a byte for each of the input.
fn output_of_input(most: Most, line: &[u8], w: &mut [u8], buf: &mut [u8]) -> usize
    requires most_says { MostSays most line.now }
    requires line_in_bounds { length line.now ≤ length w.old }
    requires picture_room_in_bounds { picture_room ≤ length buf.old }
    ensures { PictureInputSays most line.now buf.old result buf.new }
{
    match most {
        Most::Ended(got) => picture_print_inner::print_input(&line[..got], w, buf),
        Most::Full | Most::Failed => 0,
    }
}

// The program: the output for standard input on standard output; on standard error why not all of it, if so.
pub fn run(rt: HostRuntime) {
    let mut line = io::buffer();
    let most = program_reading_inner::read_most(&mut rt.stdin(), &mut line);
    let mut w = io::buffer();
    let mut buf = io::large_buffer();
    let m = output_of_input(most, &line, &mut w, &mut buf);
    let wrote = io::write_all(STDOUT_FILENO, &buf[..m]);
    let ended = program_outcome_inner::whole_ending(most, wrote);
    let k = program_ending_inner::say(ended, &mut buf);
    io::write_all(STDERR_FILENO, &buf[..k]);
}
