// The record that a line writes, placed into a lent buffer. No public calls.

#![tactic(auto)]

ghost use Rattle.std.specs.Prelude.{◌+◌, ◌≤◌, ◌≡◌, length};
ghost use Rattle.files_text_inner.specs.Room.{record_room};
ghost use Rattle.files_write_line_inner.specs.Says.{RingSpelt, LineSays};

use record_spec::Kind;
use refusal::Refusal;

// The record of a reading that is spelt by t, into the lent bytes w.
fn write_spelt(
    kind: Kind,
    k: usize,
    t: &[u8],
    w: &mut [u8],
    buf: &mut [u8],
    at: usize,
) -> Result<usize, Refusal>
    requires w_len { length w.old ≡ length t.now }
    requires record_room_in_bounds { at + record_room ≤ length buf.old }
    ensures { RingSpelt kind k t.now buf.old at result buf.new }
{
    if !text_spell_inner::spell(t, w) {
        return Err(Refusal::Line);
    }
    writer::write_record(w, k, kind, buf, at)
}

// The record that a line writes, or why it writes none.
pub fn place_line(kind: Kind, line: &[u8], buf: &mut [u8], at: usize) -> Result<usize, Refusal>
    requires { at + record_room ≤ length buf.old }
    ensures { LineSays kind line.now buf.old at result buf.new }
{
    if 4095 < line.len() {
        return Err(Refusal::Line);
    }
    let Some((k, e)) = desk_words_inner::head_of(line) else {
        return Err(Refusal::Line);
    };
    let n = line.len() - e;
    let mut w = [0u8; 4095];
    write_spelt(kind, k, &line[e..], &mut w[..n], buf, at)
}
