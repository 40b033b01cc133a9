// A text with slots placed where it fits however long its numbers get, so that there is room for it by its form alone. No public calls.

#![tactic(auto)]

ghost use Rattle.std.specs.Prelude.{◌+◌, ◌≤◌, length};
ghost use Rattle.text_fill_spec.specs.Filled.{filled_text, longest};
ghost use Rattle.text_form_inner.specs.Fits.{Fits};

// The text: each % is the next number, each @ the next n sectors of `rings`.
pub fn place_form(
    buf: &mut [u8],
    at: usize,
    text: &[u8],
    numbers: &[usize],
    n: usize,
    rings: &[u8],
) -> usize
    requires { at + longest text.now n ≤ length buf.old }
    ensures { Fits (longest text.now n) buf.old at (filled_text text.now numbers.now n rings.now) result buf.new }
{
    text_fill_inner::place_filled(buf, at, text, numbers, n, rings)
}
