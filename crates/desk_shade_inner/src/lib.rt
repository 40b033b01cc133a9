// The shades of reflectances by a card: the words, the calls, and what they print. No public calls.

#![tactic(auto)]

ghost use Rattle.std.specs.Prelude.{◌+◌, ◌≤◌, length};
ghost use Rattle.stream_spec.specs.Blocks.{Puts};
ghost use Rattle.text_words_spec.specs.Words.{Nibbles};
ghost use Rattle.desk_spec.specs.declared.Verb.TheVariants as verbs;
ghost use Rattle.desk_spec.specs.Questions.{Replies};
ghost use Rattle.desk_spec.specs.Answers.{ShadesSays, VerbSays};
ghost use Rattle.desk_texts_inner.specs.Says.{desk_room, Answered};
ghost use Rattle.desk_shade_inner.specs.Says.{ReadsFloats, ShadesAsked, FloatsTold};

use refusal::Refusal;

fn answer_shades(k: usize, xs: &[f32], buf: &mut [u8], at: usize) -> Result<usize, Refusal>
    requires in_bounds { 3 ≤ length xs.now }
    requires xs_len_bound { length xs.now ≤ 512 }
    requires desk_room_in_bounds { at + desk_room ≤ length buf.old }
    ensures { Answered (ShadesSays k xs.now) buf.old at result buf.new }
{
    if xs.len() == 3 {
        return Ok(desk_card_inner::answer_one(k, xs, buf, at));
    }
    let n = xs.len() - 2;
    let mut out = [0u8; 512];
    Ok(desk_card_inner::answer_ring(k, xs, &mut out[..n], buf, at))
}

// The floats of digits that lie end to end.
fn answer_digits(k: usize, s: &[u8], buf: &mut [u8], at: usize) -> Result<usize, Refusal>
    requires in_bounds { 24 ≤ length s.now }
    requires s_len_bound { length s.now ≤ 4095 }
    requires nibbles { Nibbles s.now }
    requires desk_room_in_bounds { at + desk_room ≤ length buf.old }
    ensures { Answered (FloatsTold k s.now) buf.old at result buf.new }
{
    let n = s.len() / 8;
    let mut room = [0.0f32; 512];
    let xs = &mut room[..n];
    desk_floats_inner::write_floats(s, n, xs);
    answer_shades(k, xs, buf, at)
}

// The digits are spelt into the lent bytes, end to end.
fn ask_shade(k: usize, u: &[u8], s: &mut [u8], buf: &mut [u8], at: usize) -> Result<usize, Refusal>
    requires u_in_bounds { length u.now ≤ length s.old }
    requires s_len_bound { length s.old ≤ 4095 }
    requires desk_room_in_bounds { at + desk_room ≤ length buf.old }
    ensures { Answered (Replies (ReadsFloats u.now) (ShadesAsked k)) buf.old at result buf.new }
{
    let Some((l, m)) = desk_rings_inner::spell_words(u, s) else {
        return Err(Refusal::Line);
    };
    if !desk_eight_inner::all_eight(u, l, m) {
        return Err(Refusal::Line);
    }
    answer_digits(k, &s[..m], buf, at)
}

// What the text behind `shade` prints, the line of a refusal left out.
fn shade_asked(t: &[u8], buf: &mut [u8], at: usize) -> Result<usize, Refusal>
    requires t_len_bound { length t.now ≤ 4095 }
    requires desk_room_in_bounds { at + desk_room ≤ length buf.old }
    ensures { Answered (VerbSays verbs.Shade t.now) buf.old at result buf.new }
{
    let Some((k, e)) = desk_words_inner::head_of(t) else {
        return Err(Refusal::Line);
    };
    let mut s = [0u8; 4095];
    ask_shade(k, &t[e..], &mut s, buf, at)
}

// What the text behind `shade` prints.
pub fn place_shade(t: &[u8], buf: &mut [u8], at: usize) -> usize
    requires t_len_bound { length t.now ≤ 4095 }
    requires desk_room_in_bounds { at + desk_room ≤ length buf.old }
    ensures { Puts (VerbSays verbs.Shade t.now) desk_room buf.old at result buf.new }
{
    let said = shade_asked(t, buf, at);
    desk_texts_inner::place_said(buf, at, said)
}
