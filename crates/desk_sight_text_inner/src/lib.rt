// What the desk prints of a sighting, placed into a lent buffer. No public calls.

#![tactic(auto)]

ghost use Rattle.std.specs.Prelude.{◌+◌, ◌≤◌, length};
ghost use Rattle.desk_spec.specs.Texts.{sight_text};
ghost use Rattle.desk_texts_inner.specs.Says.{desk_room, LinePrinted};

use refusal::Refusal;
use sight_spec::Sighting;

// The line of an answer.
pub fn place_sighting(buf: &mut [u8], at: usize, a: Result<Sighting, Refusal>) -> usize
    requires { at + desk_room ≤ length buf.old }
    ensures { LinePrinted buf.old at (sight_text a) result buf.new }
{
    match a {
        Ok(
            Sighting::Front {
                target,
                shift,
                misread,
            },
        ) => desk_texts_inner::place_plain(
            buf,
            at,
            b"front % turned % misread %\n",
            &[target, shift, misread],
        ),
        Ok(
            Sighting::Back {
                target,
                shift,
                misread,
            },
        ) => desk_texts_inner::place_plain(
            buf,
            at,
            b"back % turned % misread %\n",
            &[target, shift, misread],
        ),
        Ok(Sighting::Several) => desk_texts_inner::place_words(buf, at, b"several\n"),
        Ok(Sighting::Unknown) => desk_texts_inner::place_words(buf, at, b"unknown\n"),
        Err(r) => desk_texts_inner::place_refusal(buf, at, r),
    }
}
