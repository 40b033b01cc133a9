// How a program's run ended, and what it says of that on standard error, in a lent buffer.

#![tactic(auto)]

ghost use Rattle.std.specs.Prelude.{◌≤◌, length};
ghost use Rattle.program_ending_inner.specs.Text.{say_room, EndingSaid, SaySays};

// How a run ended: all of the output was written, or why not.
#[derive(Clone, Copy)]
pub enum Ending {
    Whole,
    // a record of a catalogue is refused: the number, and the place in the whole catalogue
    Refused(usize, usize),
    // a read failed
    Unread,
    // a write failed
    Unwritten,
    // the input goes on behind the greatest number of the program
    TooLong,
    // the input has to be gone through twice and is no file, or does not stand at its beginning
    NoFile,
    // a read failed when the input was gone through again
    Lost,
    // the input was not the same when it was gone through again
    Changed,
}

// No text is longer.
const ROOM: usize = 80;

fn place_ending(e: Ending, buf: &mut [u8]) -> usize
    requires { say_room ≤ length buf.old }
    ensures { EndingSaid e buf.old result buf.new }
{
    match e {
        Ending::Whole => 0,
        Ending::Refused(x, p) => text_lines_inner::place_two(buf, 0, b"refused ", x, b" at ", p),
        Ending::Unread => text_digits_inner::place_text(
            buf,
            0,
            b"not whole: the input could not be read\n",
        ),
        Ending::Unwritten => {
            text_digits_inner::place_text(buf, 0, b"not whole: the output could not be written\n")
        }
        Ending::TooLong => text_digits_inner::place_text(
            buf,
            0,
            b"not whole: the input is too long\n",
        ),
        Ending::NoFile => {
            text_digits_inner::place_text(
                buf,
                0,
                b"not begun: the input is no file that is read from its beginning\n",
            )
        }
        Ending::Lost => {
            text_digits_inner::place_text(
                buf,
                0,
                b"not whole: the input could not be read a second time\n",
            )
        }
        Ending::Changed => text_digits_inner::place_text(
            buf,
            0,
            b"not whole: the input was not the same when it was read a second time\n",
        ),
    }
}

// The text at the beginning of the buffer, and its length: 0 where all is well. Where the buffer has no room for 80 bytes nothing is written, and the length is 0.
pub fn say(e: Ending, buf: &mut [u8]) -> usize
    ensures { SaySays e buf.old result buf.new }
{
    if buf.len() < ROOM {
        return 0;
    }
    place_ending(e, buf)
}
