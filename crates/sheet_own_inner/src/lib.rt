// Rings of one's own for a sheet, a line of digits each: all lines checked before the first target is placed. No public calls.

#![tactic(auto)]

ghost use Rattle.std.specs.Prelude.{◌≤◌, ◌≡◌, length};
ghost use Rattle.stream_spec.specs.Lines.{lines};
ghost use Rattle.refusal.specs.Order.{CheckSays};
ghost use Rattle.sheet_print_spec.specs.Prints.{line_order};
ghost use Rattle.sheet_own_inner.specs.Says.{LinesSay};

use refusal::Refusal;
use sheet_spec::Sheet;

// No text of a target is longer.
const ROOM: usize = 18432;

// The first refusal of a text's lines, and the number of its line.
#[derive(Clone, Copy)]
pub struct RefusedLine {
    pub refusal: Refusal,
    pub line: usize,
}

// The checks of target i, which shows the ring of a line; it is spelt into the lent bytes.
fn check_line(sheet: Sheet, line: &[u8], i: usize, ring: &mut [u8]) -> Result<(), Refusal>
    requires { length ring.old ≡ length line.now }
    ensures { CheckSays (line_order sheet line.now i) result }
{
    if !text_spell_inner::spell(line, ring) {
        return Err(Refusal::Line);
    }
    sheets::check_target(sheet, ring, i, ROOM)
}

// The checks of all lines, in order: how many they are.
pub fn check_lines(sheet: Sheet, s: &[u8], ring: &mut [u8]) -> Result<usize, RefusedLine>
    requires { length s.now ≤ length ring.old }
    ensures { LinesSay sheet (lines s.now) result }
{
    let mut at = 0;
    let mut i = 0;
    while at < s.len() {
        let e = sheet_lines_inner::line_end(s, at);
        let n = e - at;
        if let Err(refusal) = check_line(sheet, &s[at..e], i, &mut ring[..n]) {
            return Err(RefusedLine {
                refusal,
                line: i + 1,
            });
        }
        at = e + 1;
        i += 1;
    }
    Ok(i)
}
