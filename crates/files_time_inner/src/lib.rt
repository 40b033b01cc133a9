// Which time through a catalogue it is: whether what a block shows is written, and how a run ends. No public calls: no contract can say what is read and written.

#![tactic(auto)]

ghost use Rattle.std.specs.Prelude.{◌≡◌};
ghost use Rattle.files_time_inner.specs.Says.{writes_of, file_failed_of, refused_of};

use program_ending_inner::Ending;
use refusal::Refusal;

// Which time through the file it is: the only one, the first, or the second.
#[derive(Clone, Copy)]
pub enum Time {
    Only,
    First,
    Second,
}

// Whether what a block shows is written.
pub fn writes(time: Time) -> bool
    ensures { result ≡ writes_of time }
{
    matches!(time, Time::Only | Time::Second)
}

// How a run ends where a read fails.
pub fn failed(time: Time) -> Ending
    ensures { result ≡ file_failed_of time }
{
    match time {
        Time::Only | Time::First => Ending::Unread,
        Time::Second => Ending::Lost,
    }
}

// How a run ends where a piece is refused: the only time that is told in what was written; the second time it is not the file that was checked.
pub fn refused(time: Time, r: Refusal) -> Ending
    ensures { result ≡ refused_of time r }
{
    match time {
        Time::Only => Ending::Whole,
        Time::First => Ending::Refused(refusal::number(r), refusal::place(r)),
        Time::Second => Ending::Changed,
    }
}
