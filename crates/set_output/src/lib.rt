// What a chart job's command prints for a line (02, g), in a lent buffer, by either rule.

#![tactic(auto)]

ghost use Rattle.std.specs.Prelude.{◌≤◌, length};
ghost use Rattle.set_text_spec.specs.Prints.{set_room, Printed, PrintedBy};
ghost use Rattle.set_output.specs.Says.{SetNumbersSay, RefusedSetSays};

pub use guard_spec::Rule;
use refusal::Refusal;

// No output is longer.
const ROOM: usize = 818;

// A refusal's line.
fn print_refused(r: Refusal, buf: &mut [u8]) -> usize
    requires { set_room ≤ length buf.old }
    ensures { RefusedSetSays r buf.old result buf.new }
{
    text_lines_inner::place_refused(buf, 0, refusal::number(r))
}

// The set for these numbers, or the refusal's line.
fn print_numbers(rule: Rule, n: usize, k: usize, d: usize, wanted: usize, buf: &mut [u8]) -> usize
    requires { set_room ≤ length buf.old }
    ensures { SetNumbersSay rule n k d wanted buf.old result buf.new }
{
    let picked = sets::pick_by(rule, n, k, d, wanted);
    match picked.answer {
        Err(r) => print_refused(r, buf),
        Ok(()) => { set_text_inner::place_set(buf, &picked.places, n, picked.taken, picked.full) }
    }
}

// The output for a line by a rule, at the beginning of the buffer; its length. Where the buffer has no room for it, nothing is written and the length is 0.
pub fn print_by(rule: Rule, line: &[u8], buf: &mut [u8]) -> usize
    ensures { PrintedBy rule line.now buf.old result buf.new }
{
    if buf.len() < ROOM {
        return 0;
    }
    match set_line::parse_set(line) {
        None => print_refused(Refusal::Line, buf),
        Some((n, k, d, wanted)) => print_numbers(rule, n, k, d, wanted, buf),
    }
}

// The output for a line by the rule of 02, g.
pub fn print_set(line: &[u8], buf: &mut [u8]) -> usize
    ensures { Printed line.now buf.old result buf.new }
{
    print_by(Rule::Plain, line, buf)
}
