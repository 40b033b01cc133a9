// What a program says of a line of its input that is refused, placed into a lent buffer. No public calls.

#![tactic(auto)]

ghost use Rattle.std.specs.Prelude.{◌≤◌, length};
ghost use Rattle.text_spec.specs.Put.{Placed};
ghost use Rattle.program_refusal_spec.specs.Text.{refused_line_text};
ghost use Rattle.program_refusal_inner.specs.Room.{refused_line_room};

use refusal::Refusal;

// What is said of a line that is refused, at the beginning of the buffer, and its length: refused 3 at 2 in line 4.
pub fn place_refused_line(r: Refusal, n: usize, buf: &mut [u8]) -> usize
    requires { refused_line_room ≤ length buf.old }
    ensures placed { Placed buf.old 0 (refused_line_text r n) result buf.new }
    ensures upper_bound { result ≤ refused_line_room }
{
    let numbers = [refusal::number(r), refusal::place(r), n];
    text_fill_inner::place_filled(buf, 0, b"refused % at % in line %\n", &numbers, 0, b"")
}
