// The bytes of a block of lines that write a catalogue, one after another. No public calls.

#![tactic(auto)]

ghost use Rattle.std.specs.Prelude.{◌+◌, ◌*◌, ◌<◌, ◌≤◌, ◌≡◌, length, take};
ghost use Rattle.files_text_inner.specs.Room.{record_room};
ghost use Rattle.files_write_spec.specs.RingLines.{most_kept};
ghost use Rattle.files_write_byte_inner.specs.Says.{most_ended};
ghost use Rattle.files_write_inner.specs.Says.{LinedSays};

use files_write_byte_inner::{BadLine, Lined};
use record_spec::Kind;

// A block, for which there is room: the records of the lines that end in it stand at the beginning of the buffer, up to the first that is refused.
pub fn take_bytes(
    kind: Kind,
    line: &mut [u8],
    len: usize,
    block: &[u8],
    buf: &mut [u8],
    lines: usize,
) -> Result<Lined, BadLine>
    requires line_len { length line.old ≡ most_kept }
    requires len_in_bounds { len ≤ length line.old }
    requires record_room_in_bounds { length block.now * record_room ≤ length buf.old }
    requires block_bound { lines + length block.now < most_ended }
    ensures { LinedSays kind (take len line.old) block.now buf.old lines result line.new buf.new }
{
    let mut lined = Lined { len, at: 0, lines };
    for &b in block {
        lined = files_write_byte_inner::take_byte(kind, line, lined, b, buf)?;
    }
    Ok(lined)
}
