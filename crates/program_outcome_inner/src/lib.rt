// How a run ended, by what was read and by whether all of the output could be written. No public calls.

#![tactic(auto)]

ghost use Rattle.std.specs.Prelude.{◌≡◌};
ghost use Rattle.program_outcome_inner.specs.Says.{line_ending, whole_ending, stream_ending};

use program_ending_inner::Ending;
use program_reading_inner::{Got, Most};

// How a run ended that read its input and then wrote the text for it: `wrote` tells whether all of it could be written.
pub fn line_ending(most: Most, wrote: bool) -> Ending
    ensures { result ≡ line_ending wrote most }
{
    if !wrote {
        return Ending::Unwritten;
    }
    match most {
        Most::Full => Ending::Whole,
        Most::Ended(_) => Ending::Whole,
        Most::Failed => Ending::Unread,
    }
}

// How a run ended that has to read its input to its end before it writes: an input that fills the buffer is too long.
pub fn whole_ending(most: Most, wrote: bool) -> Ending
    ensures { result ≡ whole_ending wrote most }
{
    match most {
        Most::Full => Ending::TooLong,
        Most::Ended(_) => line_ending(most, wrote),
        Most::Failed => line_ending(most, wrote),
    }
}

// How a run ended that wrote the texts of its lines as they came, where `got` is what its last read gave.
pub fn stream_ending(got: Got, wrote: bool) -> Ending
    ensures { result ≡ stream_ending wrote got }
{
    if !wrote {
        return Ending::Unwritten;
    }
    match got {
        Got::Bytes(_) => Ending::TooLong,
        Got::Over => Ending::Whole,
        Got::Failed => Ending::Unread,
    }
}
