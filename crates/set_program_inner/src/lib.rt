// The program of a chart job's command, by either rule (02, g): it reads a line, and writes the output for it. No public calls: no contract can say what is read or written.

#![tactic(auto)]

ghost use Rattle.std.specs.Prelude.{◌≤◌, length};
ghost use Rattle.program_reading_inner.specs.Says.{MostSays};
ghost use Rattle.set_program_inner.specs.Says.{set_line_bytes, InputSays};

pub use guard_spec::Rule;
use program_reading_inner::Most;
use std::rt::HostRuntime;

// The number of standard error.
const STDERR_FILENO: i32 = 2;

// The number of standard output.
const STDOUT_FILENO: i32 = 1;

// The output for an input of which that was read: all of it, or as many bytes as there was room for. There has to be room for 17 bytes, of which a line has at
// most 16. Where a read failed there is no output.
fn output_of_input(rule: Rule, most: Most, line: &[u8], buf: &mut [u8]) -> usize
    requires set_line_bytes_in_bounds { set_line_bytes ≤ length line.now }
    requires most_says { MostSays most line.now }
    ensures { InputSays rule most line.now buf.old result buf.new }
{
    match most {
        Most::Full => set_output::print_by(rule, line, buf),
        Most::Ended(got) => set_output::print_by(rule, &line[..got], buf),
        Most::Failed => 0,
    }
}

// The program: the output for standard input on standard output; on standard error why not all of it, if so.
pub fn run(rt: HostRuntime, rule: Rule) {
    let mut line = [0u8; 32];
    let most = program_reading_inner::read_most(&mut rt.stdin(), &mut line);
    let mut buf = io::buffer();
    let m = output_of_input(rule, most, &line, &mut buf);
    let wrote = io::write_all(STDOUT_FILENO, &buf[..m]);
    let ended = program_outcome_inner::line_ending(most, wrote);
    let k = program_ending_inner::say(ended, &mut buf);
    io::write_all(STDERR_FILENO, &buf[..k]);
}
