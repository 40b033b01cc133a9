// One byte more of the lines that write a catalogue, and their end. No public calls.

#![tactic(auto)]

ghost use Rattle.std.specs.Prelude.{◌+◌, ◌<◌, ◌≤◌, ◌≡◌, length, take};
ghost use Rattle.files_text_inner.specs.Room.{record_room};
ghost use Rattle.files_write_spec.specs.RingLines.{most_kept};
ghost use Rattle.files_write_byte_inner.specs.Says.{most_ended, LinedByte, LinedEnd};

use record_spec::Kind;
use refusal::Refusal;

// Behind some bytes: how many bytes of the line under way are held, the place behind the records, and how many lines have ended.
#[derive(Clone, Copy)]
pub struct Lined {
    pub len: usize,
    pub at: usize,
    pub lines: usize,
}

// Why a line that ends is refused, and its number, counted from 1.
#[derive(Clone, Copy)]
pub struct BadLine {
    pub why: Refusal,
    pub number: usize,
}

// One byte more of a line whose first `lined.len` bytes are held. A newline ends it; of a line that is too long the rest is passed over.
pub fn take_byte(
    kind: Kind,
    line: &mut [u8],
    lined: Lined,
    b: u8,
    buf: &mut [u8],
) -> Result<Lined, BadLine>
    requires line_len { length line.old ≡ most_kept }
    requires len_in_bounds { lined.len ≤ length line.old }
    requires record_room_in_bounds { lined.at + record_room ≤ length buf.old }
    requires lines_lt_most_ended { lined.lines < most_ended }
    ensures { LinedByte kind (take lined.len line.old) lined.at b buf.old lined.lines result line.new buf.new }
{
    let Lined { len, at, lines } = lined;
    if b == b'\n' {
        return match files_write_line_inner::place_line(kind, &line[..len], buf, at) {
            Ok(e) => Ok(Lined {
                len: 0,
                at: e,
                lines: lines + 1,
            }),
            Err(why) => Err(BadLine {
                why,
                number: lines + 1,
            }),
        };
    }
    if len < line.len() {
        line[len] = b;
        return Ok(Lined {
            len: len + 1,
            at,
            lines,
        });
    }
    Ok(lined)
}

// The end of the input: the record of a last line that has no newline.
pub fn take_last(kind: Kind, line: &[u8], buf: &mut [u8], lines: usize) -> Result<Lined, BadLine>
    requires record_room_in_bounds { record_room ≤ length buf.old }
    requires lines_lt_most_ended { lines < most_ended }
    ensures { LinedEnd kind line.now buf.old lines result buf.new }
{
    if line.len() == 0 {
        return Ok(Lined {
            len: 0,
            at: 0,
            lines,
        });
    }
    match files_write_line_inner::place_line(kind, line, buf, 0) {
        Ok(e) => Ok(Lined {
            len: 0,
            at: e,
            lines,
        }),
        Err(why) => Err(BadLine {
            why,
            number: lines + 1,
        }),
    }
}
