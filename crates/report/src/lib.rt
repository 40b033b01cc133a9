// The report (02, request f): many lines of k and n, and for each the necklaces and the Lyndon words, or a refusal. The input comes in blocks, cut anywhere.

#![tactic(auto)]

ghost use Rattle.std.specs.Prelude.{◌≤◌, ◌≡◌, [], length, take};
ghost use Rattle.report_spec.specs.Blocks.{state_of, FeedSays, FinishSays};

use report_spec::{Fed, Pending};
use stream_kind_inner::Kind;

// No line of the report is longer.
const LINE_ROOM: usize = 22;

// Before the first block: no line is under way.
pub fn start() -> Pending
    ensures { result ≡ state_of [] }
{
    Pending {
        line: [0u8; 9],
        len: 0,
    }
}

// The state whose line under way is the first `len` bytes: they are followed by 0.
fn tidied(bytes: &[u8], len: usize) -> Pending
    requires len_bound { len ≤ 9 }
    requires len_in_bounds { len ≤ length bytes.now }
    ensures { result ≡ state_of (take len bytes.now) }
{
    let mut line = [0u8; 9];
    line[..len].copy_from_slice(&bytes[..len]);
    Pending { line, len }
}

// A block: the texts of the lines that end in it, at the beginning of the buffer. As many bytes are taken as there is room for lines, so that 22 bytes of buffer for
// each byte of the block take it whole.
pub fn feed(p: Pending, block: &[u8], buf: &mut [u8]) -> Fed
    ensures { FeedSays p block.now buf.old result buf.new }
{
    let taken = (buf.len() / LINE_ROOM).min(block.len());
    let mut line = p.line;
    let len = p.len.min(9);
    let q = stream_blocks_inner::take_bytes(Kind::Count, &mut line, len, &block[..taken], buf);
    let state = tidied(&line, q.len);
    Fed {
        state,
        taken,
        length: q.at,
    }
}

// The end of the input: the text of a last line that has no newline, at the beginning of the buffer, and how long it is. Where the buffer has no room for a line
// nothing is written.
pub fn finish(p: Pending, buf: &mut [u8]) -> usize
    ensures { FinishSays p buf.old result buf.new }
{
    if buf.len() < LINE_ROOM {
        return 0;
    }
    let line = p.line;
    let len = p.len.min(9);
    stream_blocks_inner::place_last(Kind::Count, &line[..len], buf)
}
