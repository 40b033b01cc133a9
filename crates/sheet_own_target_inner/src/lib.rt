// Targets of rings of one's own for a sheet, each placed from its line, which has passed its checks. No public calls.

#![tactic(auto)]

ghost use Rattle.std.specs.Prelude.{◌<◌, ◌≤◌, ◌≡◌, Bool, length, Ok};
ghost use Rattle.stream_spec.specs.Lines.{lines};
ghost use Rattle.refusal.specs.Order.{Passed};
ghost use Rattle.sheet_spec.specs.Says.{target_room, TargetSays};
ghost use Rattle.sheet_print_spec.specs.Prints.{ring_in, line_order};
ghost use Rattle.sheet_lines_inner.specs.Says.{LineReached};
ghost use Rattle.sheet_own_inner.specs.Says.{LinesPass};
ghost use Rattle.sheet_own_target_inner.specs.Says.{LineStep};

use sheet_spec::Sheet;

// What placing a target told: how long its text is, and where the next line begins.
#[derive(Clone, Copy)]
pub struct Step {
    pub length: usize,
    pub next: usize,
}

// Target i, which shows the ring of a line that has passed its checks, at the beginning of the buffer, and how long that is; the ring is spelt into the lent bytes.
fn place_spelt(
    sheet: Sheet,
    line: &[u8],
    i: usize,
    last: bool,
    ring: &mut [u8],
    buf: &mut [u8],
) -> usize
    requires passed { Passed (line_order sheet line.now i) }
    requires ring_len { length ring.old ≡ length line.now }
    requires target_room_in_bounds { target_room ≤ length buf.old }
    ensures { TargetSays sheet (ring_in line.now) i last buf.old (Ok result) buf.new }
{
    text_spell_inner::spell(line, ring);
    match sheets::target(sheet, ring, i, last, buf) {
        Ok(m) => m,
        Err(_) => 0,
    }
}

// The same, with bytes of its own for the ring.
fn place_line(sheet: Sheet, line: &[u8], i: usize, last: bool, buf: &mut [u8]) -> usize
    requires passed { Passed (line_order sheet line.now i) }
    requires target_room_in_bounds { target_room ≤ length buf.old }
    ensures { TargetSays sheet (ring_in line.now) i last buf.old (Ok result) buf.new }
{
    let mut ring = [0u8; 64];
    let n = line.len();
    place_spelt(sheet, line, i, last, &mut ring[..n], buf)
}

// The same of a text whose lines have all passed, of which line i begins at `at`; and where the next begins.
pub fn place_next(sheet: Sheet, s: &[u8], at: usize, i: usize, count: usize, buf: &mut [u8]) -> Step
    requires count_value { (count ≡ length (lines s.now)) × LinesPass sheet (lines s.now) count }
    requires line_reached { LineReached s.now at i × (i < count) }
    requires target_room_in_bounds { target_room ≤ length buf.old }
    ensures { LineStep sheet s.now count i buf.old result.length result.next buf.new }
{
    let e = sheet_lines_inner::line_end(s, at);
    let m = place_line(sheet, &s[at..e], i, i + 1 == count, buf);
    Step {
        length: m,
        next: e + 1,
    }
}
