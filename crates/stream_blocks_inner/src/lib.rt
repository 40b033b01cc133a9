// The bytes of a block, one after another: the line under way, and the texts of the lines that end. No public calls.

#![tactic(auto)]

ghost use Rattle.std.specs.Prelude.{◌+◌, ◌*◌, ◌≤◌, ◌≡◌, length, take};
ghost use Rattle.stream_spec.specs.Blocks.{ByteSays, BlockSays, EndSays};
ghost use Rattle.stream_kind_inner.specs.Says.{Said, most_of, room_of};

use stream_kind_inner::Kind;
use stream_steps_inner::Behind;

// One byte more of a line whose first `len` bytes are held. Where it ends the line, the line's text is placed.
fn take_byte(kind: Kind, line: &mut [u8], len: usize, b: u8, buf: &mut [u8], at: usize) -> Behind
    requires line_len { length line.old ≡ most_of kind }
    requires len_in_bounds { len ≤ length line.old }
    requires kind_in_bounds { at + room_of kind ≤ length buf.old }
    ensures len_in_bounds_2 { result.len ≤ length line.new }
    ensures byte_says { ByteSays (Said kind) (length line.old) (room_of kind) (take len line.old) at b buf.old (take result.len line.new) result.at buf.new }
{
    match stream_steps_inner::hold_byte(line, len, b) {
        None => {
            let next = stream_asking_inner::place_text(kind, &line[..len], buf, at);
            Behind { len: 0, at: next }
        }
        Some(m) => Behind { len: m, at },
    }
}

// A block, for which there is room: the texts of the lines that end in it stand at the beginning of the buffer.
pub fn take_bytes(kind: Kind, line: &mut [u8], len: usize, block: &[u8], buf: &mut [u8]) -> Behind
    requires line_len { length line.old ≡ most_of kind }
    requires len_in_bounds { len ≤ length line.old }
    requires kind_in_bounds { length block.now * room_of kind ≤ length buf.old }
    ensures len_in_bounds_2 { result.len ≤ length line.new }
    ensures block_says { BlockSays (Said kind) (most_of kind) (take len line.old) block.now buf.old (take result.len line.new) result.at buf.new }
{
    let mut m = len;
    let mut at = 0;
    for &b in block {
        let q = take_byte(kind, line, m, b, buf, at);
        m = q.len;
        at = q.at;
    }
    Behind { len: m, at }
}

// The end of the input: the text of a last line that has no newline, at the beginning of the buffer, and how long it is.
pub fn place_last(kind: Kind, line: &[u8], buf: &mut [u8]) -> usize
    requires { room_of kind ≤ length buf.old }
    ensures { EndSays (Said kind) line.now buf.old result buf.new }
{
    if line.len() == 0 {
        return 0;
    }
    stream_asking_inner::place_text(kind, line, buf, 0)
}
