// The steps of a program that answers lines which place no text: a byte more of the line under way, a read that failed, whether another follows. No public calls.

#![tactic(auto)]

ghost use Rattle.std.specs.Prelude.{◌≤◌, ◌≡◌, length};
ghost use Rattle.stream_steps_inner.specs.Says.{HeldSays, GoesOn};

use program_reading_inner::Got;

// Behind some bytes: how many bytes of the line under way are held, and the place behind the texts.
#[derive(Clone, Copy)]
pub struct Behind {
    pub len: usize,
    pub at: usize,
}

// One byte more of a line whose first `len` bytes are held, and how many are held then: None where it ends the line, as a newline does. Of a line that is too long
// the rest is passed over.
pub fn hold_byte(line: &mut [u8], len: usize, b: u8) -> Option<usize>
    requires { len ≤ length line.old }
    ensures { HeldSays b len line.old result line.new }
{
    if b == b'\n' {
        return None;
    }
    if len < line.len() {
        line[len] = b;
        return Some(len + 1);
    }
    Some(len)
}

// Behind a read that failed: no text, and as much of the line under way as before it.
pub fn behind_failure(len: usize) -> Behind
    ensures { (result.len ≡ len) × (result.at ≡ 0) }
{
    Behind { len, at: 0 }
}

// Whether another turn follows: where bytes were read and their texts written. A proved loop has to end, and nothing says that an input does: so not where 2 to the
// power 64 reads were made, and no run comes so far.
pub fn goes_on(got: Got, wrote: bool, reads: u64) -> bool
    ensures { GoesOn wrote got reads result }
{
    wrote && matches!(got, Got::Bytes(_)) && reads < u64::MAX
}
