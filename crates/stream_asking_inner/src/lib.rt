// The programs that answer each line of their input by a text: what a line prints, placed into a lent buffer. No public calls.

#![tactic(auto)]

ghost use Rattle.std.specs.Prelude.{◌+◌, ◌≤◌, length};
ghost use Rattle.stream_spec.specs.Blocks.{Puts};
ghost use Rattle.stream_kind_inner.specs.Says.{Said, room_of};

use stream_kind_inner::Kind;

// What a line prints, its newline left out.
pub fn place_text(kind: Kind, line: &[u8], buf: &mut [u8], at: usize) -> usize
    requires { at + room_of kind ≤ length buf.old }
    ensures { Puts (Said kind line.now) (room_of kind) buf.old at result buf.new }
{
    match kind {
        Kind::Count => report_answers_inner::place_answer(line, buf, at),
        Kind::Desk => desk_inner::place_answer(line, buf, at),
    }
}
