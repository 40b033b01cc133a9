// Questions of numbers alone: how many rings there are, and a stock target's home reading. No public calls.

#![tactic(auto)]

ghost use Rattle.std.specs.Prelude.{◌+◌, ◌≤◌, length};
ghost use Rattle.stream_spec.specs.Blocks.{Puts};
ghost use Rattle.desk_spec.specs.declared.Verb.TheVariants as verbs;
ghost use Rattle.desk_spec.specs.Answers.{ManySays, VerbSays};
ghost use Rattle.desk_texts_inner.specs.Says.{desk_room, Answered};

use refusal::Refusal;

fn answer_many(k: usize, n: usize, buf: &mut [u8], at: usize) -> Result<usize, Refusal>
    requires { at + desk_room ≤ length buf.old }
    ensures { Answered (ManySays k n) buf.old at result buf.new }
{
    let a = how_many::necklaces(k, n)?;
    let b = how_many::lyndon_words(k, n)?;
    Ok(desk_texts_inner::place_many(buf, at, Ok(a), Ok(b)))
}

// What the text behind `many` prints, the line of a refusal left out.
fn many_asked(t: &[u8], buf: &mut [u8], at: usize) -> Result<usize, Refusal>
    requires { at + desk_room ≤ length buf.old }
    ensures { Answered (VerbSays verbs.Many t.now) buf.old at result buf.new }
{
    let Some((k, n)) = line::parse_fields(t) else {
        return Err(Refusal::Line);
    };
    answer_many(k, n, buf, at)
}

// What the text behind `many` prints.
pub fn place_many(t: &[u8], buf: &mut [u8], at: usize) -> usize
    requires { at + desk_room ≤ length buf.old }
    ensures { Puts (VerbSays verbs.Many t.now) desk_room buf.old at result buf.new }
{
    let said = many_asked(t, buf, at);
    desk_texts_inner::place_said(buf, at, said)
}

// What the text behind `stock` prints, the line of a refusal left out.
fn stock_asked(t: &[u8], buf: &mut [u8], at: usize) -> Result<usize, Refusal>
    requires { at + desk_room ≤ length buf.old }
    ensures { Answered (VerbSays verbs.Stock t.now) buf.old at result buf.new }
{
    let Some(b) = line::parse_number(t) else {
        return Err(Refusal::Line);
    };
    if 255 < b {
        return Err(Refusal::Line);
    }
    let h = stock::stock_home(b as u8);
    Ok(desk_texts_inner::place_stock(buf, at, h))
}

// What the text behind `stock` prints.
pub fn place_stock(t: &[u8], buf: &mut [u8], at: usize) -> usize
    requires { at + desk_room ≤ length buf.old }
    ensures { Puts (VerbSays verbs.Stock t.now) desk_room buf.old at result buf.new }
{
    let said = stock_asked(t, buf, at);
    desk_texts_inner::place_said(buf, at, said)
}
