// The lines of a text, of which each is a ring of one's own for a sheet: where a line ends, and the sheet that the first asks for. No public calls.

#![tactic(auto)]

ghost use Rattle.std.specs.Prelude.{◌<◌, ◌≡◌, length};
ghost use Rattle.stream_spec.specs.Lines.{lines};
ghost use Rattle.sheet_print_spec.specs.Prints.{own_sheet};
ghost use Rattle.sheet_lines_inner.specs.Says.{LineAt};

use sheet_spec::Sheet;

// Where the line that begins at `at` ends: at its newline, or at the end of the text.
pub fn line_end(s: &[u8], at: usize) -> usize
    requires { at < length s.now }
    ensures { LineAt s.now at result }
{
    at + text_spell_inner::piece_end(&s[at..], b'\n')
}

// The sheet for the rings of a text: its n is that of the first.
pub fn own_sheet(sheet: Sheet, s: &[u8]) -> Sheet
    ensures { result ≡ own_sheet sheet (lines s.now) }
{
    let mut own = sheet;
    own.n = text_spell_inner::piece_end(s, b'\n');
    own
}
