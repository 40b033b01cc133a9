// Questions about one reading: its class, its home, whether it is even-handed, its place on the strip, the next ring. No public calls.

#![tactic(auto)]

ghost use Rattle.std.specs.Prelude.{◌+◌, ◌≤◌, ◌≡◌, length};
ghost use Rattle.stream_spec.specs.Blocks.{Puts};
ghost use Rattle.text_words_spec.specs.Words.{Spelt};
ghost use Rattle.desk_spec.specs.declared.About.TheVariants as asks;
ghost use Rattle.desk_spec.specs.declared.Verb.TheVariants as verbs;
ghost use Rattle.desk_spec.specs.Questions.{Replies};
ghost use Rattle.desk_spec.specs.Answers.{AboutSays, VerbSays, blank};
ghost use Rattle.desk_texts_inner.specs.Says.{desk_room, Answered};

use desk_spec::About;
use refusal::Refusal;

// The answer to each question.
fn answer_class(k: usize, w: &[u8], buf: &mut [u8], at: usize) -> Result<usize, Refusal>
    requires { at + desk_room ≤ length buf.old }
    ensures { Answered (AboutSays asks.Class k w.now) buf.old at result buf.new }
{
    let c = classify::classify(w, k)?;
    Ok(desk_texts_inner::place_class(buf, at, c))
}

fn answer_home(
    k: usize,
    w: &[u8],
    out: &mut [u8],
    buf: &mut [u8],
    at: usize,
) -> Result<usize, Refusal>
    requires w_len_bound { length w.now ≤ 4095 }
    requires out_value { out.old ≡ blank (length w.now) }
    requires desk_room_in_bounds { at + desk_room ≤ length buf.old }
    ensures { Answered (AboutSays asks.Home k w.now) buf.old at result buf.new }
{
    let h = home::bring_home(w, k, out)?;
    Ok(desk_texts_inner::place_homed(buf, at, Ok(h), out))
}

fn answer_even(k: usize, w: &[u8], buf: &mut [u8], at: usize) -> Result<usize, Refusal>
    requires { at + desk_room ≤ length buf.old }
    ensures { Answered (AboutSays asks.Even k w.now) buf.old at result buf.new }
{
    let yes = home::even_handed(w, k)?;
    Ok(desk_texts_inner::place_told(buf, at, Ok(yes)))
}

fn answer_place(k: usize, w: &[u8], buf: &mut [u8], at: usize) -> Result<usize, Refusal>
    requires { at + desk_room ≤ length buf.old }
    ensures { Answered (AboutSays asks.Place k w.now) buf.old at result buf.new }
{
    let p = strip::place_of(w, k)?;
    Ok(desk_texts_inner::place_position(buf, at, Ok(p)))
}

fn answer_about(
    v: About,
    k: usize,
    w: &[u8],
    out: &mut [u8],
    buf: &mut [u8],
    at: usize,
) -> Result<usize, Refusal>
    requires w_len_bound { length w.now ≤ 4095 }
    requires out_value { out.old ≡ blank (length w.now) }
    requires desk_room_in_bounds { at + desk_room ≤ length buf.old }
    ensures { Answered (AboutSays v k w.now) buf.old at result buf.new }
{
    match v {
        About::Class => answer_class(k, w, buf, at),
        About::Home => answer_home(k, w, out, buf, at),
        About::Even => answer_even(k, w, buf, at),
        About::Place => answer_place(k, w, buf, at),
        About::Step(x) => Ok(desk_steps_inner::answer_step(x, k, w, out, buf, at)),
    }
}

// The reading is spelt into the lent bytes w.
fn ask_about(
    v: About,
    k: usize,
    t: &[u8],
    w: &mut [u8],
    out: &mut [u8],
    buf: &mut [u8],
    at: usize,
) -> Result<usize, Refusal>
    requires t_len_bound { length t.now ≤ 4095 }
    requires w_len { length w.old ≡ length t.now }
    requires out_value { out.old ≡ blank (length t.now) }
    requires desk_room_in_bounds { at + desk_room ≤ length buf.old }
    ensures { Answered (Replies (Spelt t.now) (AboutSays v k)) buf.old at result buf.new }
{
    if !text_spell_inner::spell(t, w) {
        return Err(Refusal::Line);
    }
    answer_about(v, k, w, out, buf, at)
}

// What the text behind the verb prints, the line of a refusal left out.
fn about_asked(v: About, t: &[u8], buf: &mut [u8], at: usize) -> Result<usize, Refusal>
    requires t_len_bound { length t.now ≤ 4095 }
    requires desk_room_in_bounds { at + desk_room ≤ length buf.old }
    ensures { Answered (VerbSays (verbs.About v) t.now) buf.old at result buf.new }
{
    let Some((k, e)) = desk_words_inner::head_of(t) else {
        return Err(Refusal::Line);
    };
    let n = t.len() - e;
    let mut w = [0u8; 4095];
    let mut out = [0u8; 4095];
    ask_about(v, k, &t[e..], &mut w[..n], &mut out[..n], buf, at)
}

// What the text behind the verb prints.
pub fn place_about(v: About, t: &[u8], buf: &mut [u8], at: usize) -> usize
    requires t_len_bound { length t.now ≤ 4095 }
    requires desk_room_in_bounds { at + desk_room ≤ length buf.old }
    ensures { Puts (VerbSays (verbs.About v) t.now) desk_room buf.old at result buf.new }
{
    let said = about_asked(v, t, buf, at);
    desk_texts_inner::place_said(buf, at, said)
}
