// Questions about two readings: whether they are the same ring, and how far apart they are. No public calls.

#![tactic(auto)]

ghost use Rattle.std.specs.Prelude.{◌+◌, ◌≤◌, ◌≡◌, length};
ghost use Rattle.stream_spec.specs.Blocks.{Puts};
ghost use Rattle.desk_spec.specs.declared.Both.TheVariants as asks;
ghost use Rattle.desk_spec.specs.declared.Verb.TheVariants as verbs;
ghost use Rattle.desk_spec.specs.Questions.{Replies};
ghost use Rattle.desk_spec.specs.Answers.{BothSays, VerbSays};
ghost use Rattle.desk_texts_inner.specs.Says.{desk_room, Answered};
ghost use Rattle.desk_words_inner.specs.Says.{SpeltBoth, ReadsBoth, BothAsked};

use desk_spec::Both;
use refusal::Refusal;

// The answer to each question.
fn answer_same(k: usize, a: &[u8], b: &[u8], buf: &mut [u8], at: usize) -> Result<usize, Refusal>
    requires { at + desk_room ≤ length buf.old }
    ensures { Answered (BothSays asks.Same k a.now b.now) buf.old at result buf.new }
{
    let yes = home::same_ring(a, b, k)?;
    Ok(desk_texts_inner::place_told(buf, at, Ok(yes)))
}

fn answer_apart(k: usize, a: &[u8], b: &[u8], buf: &mut [u8], at: usize) -> Result<usize, Refusal>
    requires { at + desk_room ≤ length buf.old }
    ensures { Answered (BothSays asks.Apart k a.now b.now) buf.old at result buf.new }
{
    let d = home::apart(a, b, k)?;
    Ok(desk_texts_inner::place_distance(buf, at, Ok(d)))
}

fn answer_both(
    v: Both,
    k: usize,
    a: &[u8],
    b: &[u8],
    buf: &mut [u8],
    at: usize,
) -> Result<usize, Refusal>
    requires { at + desk_room ≤ length buf.old }
    ensures { Answered (BothSays v k a.now b.now) buf.old at result buf.new }
{
    match v {
        Both::Same => answer_same(k, a, b, buf, at),
        Both::Apart => answer_apart(k, a, b, buf, at),
    }
}

// The readings are spelt into the lent bytes a and b.
fn ask_both(
    v: Both,
    k: usize,
    s: &[u8],
    t: &[u8],
    a: &mut [u8],
    b: &mut [u8],
    buf: &mut [u8],
    at: usize,
) -> Result<usize, Refusal>
    requires a_len { length a.old ≡ length s.now }
    requires b_len { length b.old ≡ length t.now }
    requires desk_room_in_bounds { at + desk_room ≤ length buf.old }
    ensures { Answered (BothAsked v k s.now t.now) buf.old at result buf.new }
{
    if !text_spell_inner::spell(s, a) {
        return Err(Refusal::Line);
    }
    if !text_spell_inner::spell(t, b) {
        return Err(Refusal::Line);
    }
    answer_both(v, k, a, b, buf, at)
}

// Two words: each is a reading.
fn ask_words(
    v: Both,
    k: usize,
    t: &[u8],
    a: &mut [u8],
    b: &mut [u8],
    buf: &mut [u8],
    at: usize,
) -> Result<usize, Refusal>
    requires t_in_bounds { length t.now ≤ length a.old }
    requires t_in_bounds_2 { length t.now ≤ length b.old }
    requires desk_room_in_bounds { at + desk_room ≤ length buf.old }
    ensures { Answered (Replies (ReadsBoth t.now) (SpeltBoth v k)) buf.old at result buf.new }
{
    let e = text_spell_inner::piece_end(t, b' ');
    if t.len() <= e {
        return Err(Refusal::Line);
    }
    let m = t.len() - (e + 1);
    ask_both(
        v,
        k,
        &t[..e],
        &t[e + 1..],
        &mut a[..e],
        &mut b[..m],
        buf,
        at,
    )
}

// What the text behind the verb prints, the line of a refusal left out.
fn both_asked(v: Both, t: &[u8], buf: &mut [u8], at: usize) -> Result<usize, Refusal>
    requires t_len_bound { length t.now ≤ 4095 }
    requires desk_room_in_bounds { at + desk_room ≤ length buf.old }
    ensures { Answered (VerbSays (verbs.Both v) t.now) buf.old at result buf.new }
{
    let Some((k, e)) = desk_words_inner::head_of(t) else {
        return Err(Refusal::Line);
    };
    let mut a = [0u8; 4095];
    let mut b = [0u8; 4095];
    ask_words(v, k, &t[e..], &mut a, &mut b, buf, at)
}

// What the text behind the verb prints.
pub fn place_both(v: Both, t: &[u8], buf: &mut [u8], at: usize) -> usize
    requires t_len_bound { length t.now ≤ 4095 }
    requires desk_room_in_bounds { at + desk_room ≤ length buf.old }
    ensures { Puts (VerbSays (verbs.Both v) t.now) desk_room buf.old at result buf.new }
{
    let said = both_asked(v, t, buf, at);
    desk_texts_inner::place_said(buf, at, said)
}
