// The strip of k shades and n sectors, a digit a sector. No public calls.

#![tactic(auto)]

ghost use Rattle.std.specs.Prelude.{◌+◌, ◌^◌, ◌≤◌, ◌≡◌, length, Ok};
ghost use Rattle.stream_spec.specs.Blocks.{Puts};
ghost use Rattle.desk_spec.specs.declared.Verb.TheVariants as verbs;
ghost use Rattle.desk_spec.specs.Texts.{strip_text};
ghost use Rattle.desk_spec.specs.Answers.{StripPrints, VerbSays, blank};
ghost use Rattle.desk_texts_inner.specs.Says.{desk_room, longest_ring, LinePrinted, Answered};

use refusal::Refusal;

// The line of a strip.
fn place_written(buf: &mut [u8], at: usize, strip: &[u8]) -> usize
    requires strip_len_bound { length strip.now ≤ longest_ring }
    requires desk_room_in_bounds { at + desk_room ≤ length buf.old }
    ensures { LinePrinted buf.old at (strip_text (Ok tt) strip.now) result buf.new }
{
    desk_texts_inner::place_ring_line(buf, at, b"@\n", strip)
}

// The output has as many bytes as the strip has sectors.
fn answer_whole(
    k: usize,
    n: usize,
    out: &mut [u8],
    buf: &mut [u8],
    at: usize,
) -> Result<usize, Refusal>
    requires out_value { out.old ≡ blank (k ^ n) }
    requires out_len_bound { length out.old ≤ longest_ring }
    requires desk_room_in_bounds { at + desk_room ≤ length buf.old }
    ensures { Answered (StripPrints k n) buf.old at result buf.new }
{
    strip::write_strip(n, k, out)?;
    Ok(place_written(buf, at, out))
}

// Numbers that are refused want no output.
fn answer_strip(k: usize, n: usize, buf: &mut [u8], at: usize) -> Result<usize, Refusal>
    requires { at + desk_room ≤ length buf.old }
    ensures { Answered (StripPrints k n) buf.old at result buf.new }
{
    limits::plan_numbers(k, n, 4096)?;
    let m = how_many_power_inner::power(k, n);
    let mut out = [0u8; 4096];
    answer_whole(k, n, &mut out[..m], buf, at)
}

// What the text behind `strip` prints, the line of a refusal left out.
fn strip_asked(t: &[u8], buf: &mut [u8], at: usize) -> Result<usize, Refusal>
    requires { at + desk_room ≤ length buf.old }
    ensures { Answered (VerbSays verbs.Strip t.now) buf.old at result buf.new }
{
    let Some((k, n)) = line::parse_fields(t) else {
        return Err(Refusal::Line);
    };
    answer_strip(k, n, buf, at)
}

// What the text behind `strip` prints.
pub fn place_strip(t: &[u8], buf: &mut [u8], at: usize) -> usize
    requires { at + desk_room ≤ length buf.old }
    ensures { Puts (VerbSays verbs.Strip t.now) desk_room buf.old at result buf.new }
{
    let said = strip_asked(t, buf, at);
    desk_texts_inner::place_said(buf, at, said)
}
