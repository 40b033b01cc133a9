// How a run of the programs that write a catalogue from lines ended, by which time it is, and what is said of that. No public calls: no contract can say what is
// written.

#![tactic(auto)]

ghost use Rattle.std.specs.Prelude.{◌≤◌, ◌≡◌, length};
ghost use Rattle.text_spec.specs.Put.{Placed};
ghost use Rattle.files_write_ending_inner.specs.Endings.{line_refused_of, line_failed_of, writes_records, HandedOn, ended_room, ended_text};

use program_ending_inner::Ending;
use refusal::Refusal;

// The number of standard output.
const STDOUT_FILENO: i32 = 1;

// Which time through the input it is.
#[derive(Clone, Copy)]
pub enum Time {
    First,
    Second,
}

// How a run ended: a line is refused, and its number; or as the run of any program may end.
#[derive(Clone, Copy)]
pub enum Ended {
    Line(Refusal, usize),
    As(Ending),
}

// How a run ends where a line is refused: the second time it is not the input that was checked.
pub fn refused(time: Time, r: Refusal, n: usize) -> Ended
    ensures { result ≡ line_refused_of time r n }
{
    match time {
        Time::First => Ended::Line(r, n),
        Time::Second => Ended::As(Ending::Changed),
    }
}

// How a run ends where a read fails.
pub fn failed(time: Time) -> Ended
    ensures { result ≡ line_failed_of time }
{
    match time {
        Time::First => Ended::As(Ending::Unread),
        Time::Second => Ended::As(Ending::Lost),
    }
}

// Whether records are written.
fn writes(time: Time) -> bool
    ensures { result ≡ writes_records time }
{
    matches!(time, Time::Second)
}

// Records, written where it is the time; whether they could be.
pub fn hand_on(time: Time, records: &[u8]) -> bool
    ensures { HandedOn time result }
{
    !writes(time) || io::write_all(STDOUT_FILENO, records)
}

// What is said of how a run ended, at the beginning of the buffer, and its length.
pub fn say_ended(e: Ended, buf: &mut [u8]) -> usize
    requires { ended_room ≤ length buf.old }
    ensures placed { Placed buf.old 0 (ended_text e) result buf.new }
    ensures upper_bound { result ≤ ended_room }
{
    match e {
        Ended::Line(r, n) => program_refusal_inner::place_refused_line(r, n, buf),
        Ended::As(t) => program_ending_inner::say(t, buf),
    }
}
