// Rings of fixed counts: the first, or the next behind a reading. No public calls.

#![tactic(auto)]

ghost use Rattle.std.specs.Prelude.{◌+◌, ◌≤◌, ◌≡◌, length, Ok};
ghost use Rattle.stream_spec.specs.Blocks.{Puts};
ghost use Rattle.desk_spec.specs.declared.Verb.TheVariants as verbs;
ghost use Rattle.desk_spec.specs.Texts.{next_ring_text};
ghost use Rattle.desk_spec.specs.Questions.{Replies};
ghost use Rattle.desk_spec.specs.Answers.{AfterPrints, VerbSays, blank};
ghost use Rattle.desk_texts_inner.specs.Says.{desk_room, longest_ring, LinePrinted, Answered};
ghost use Rattle.desk_counts_inner.specs.Says.{ReadsRing, AfterAsked};

use refusal::Refusal;
use shades_spec::Next;

fn place_next_ring(buf: &mut [u8], at: usize, a: Next, ring: &[u8]) -> usize
    requires ring_len_bound { length ring.now ≤ longest_ring }
    requires desk_room_in_bounds { at + desk_room ≤ length buf.old }
    ensures { LinePrinted buf.old at (next_ring_text (Ok a) ring.now) result buf.new }
{
    match a {
        Next::Ring => desk_texts_inner::place_ring(buf, at, ring),
        Next::Done => desk_texts_inner::place_done(buf, at),
    }
}

// The output has as many bytes as the reading has sectors.
fn answer_in(
    k: usize,
    w: &[u8],
    counts: &[usize],
    out: &mut [u8],
    buf: &mut [u8],
    at: usize,
) -> Result<usize, Refusal>
    requires out_len_bound { length out.old ≤ longest_ring }
    requires out_value { out.old ≡ blank (length w.now) }
    requires desk_room_in_bounds { at + desk_room ≤ length buf.old }
    ensures { Answered (AfterPrints k w.now counts.now) buf.old at result buf.new }
{
    let a = shades::next_ring(w, k, counts, out)?;
    Ok(place_next_ring(buf, at, a, out))
}

// The next ring behind the reading w.
fn answer_after(
    k: usize,
    w: &[u8],
    counts: &[usize],
    buf: &mut [u8],
    at: usize,
) -> Result<usize, Refusal>
    requires w_len_bound { length w.now ≤ 4095 }
    requires desk_room_in_bounds { at + desk_room ≤ length buf.old }
    ensures { Answered (AfterPrints k w.now counts.now) buf.old at result buf.new }
{
    let n = w.len();
    let mut out = [0u8; 4095];
    answer_in(k, w, counts, &mut out[..n], buf, at)
}

// The reading is spelt into the lent bytes w.
fn ask_ring(
    k: usize,
    s: &[u8],
    t: &[u8],
    w: &mut [u8],
    buf: &mut [u8],
    at: usize,
) -> Result<usize, Refusal>
    requires s_len_bound { length s.now ≤ 4095 }
    requires t_len_bound { length t.now ≤ 4095 }
    requires w_len { length w.old ≡ length s.now }
    requires desk_room_in_bounds { at + desk_room ≤ length buf.old }
    ensures { Answered (AfterAsked AfterPrints k s.now t.now) buf.old at result buf.new }
{
    if !text_spell_inner::spell(s, w) {
        return Err(Refusal::Line);
    }
    let mut counts = [0usize; 4096];
    let Some(m) = desk_counts_inner::word_counts(t, &mut counts) else {
        return Err(Refusal::Line);
    };
    answer_after(k, w, &counts[..m], buf, at)
}

// Two words: a reading, and counts.
fn ask_words(k: usize, t: &[u8], w: &mut [u8], buf: &mut [u8], at: usize) -> Result<usize, Refusal>
    requires t_len_bound { length t.now ≤ 4095 }
    requires t_in_bounds { length t.now ≤ length w.old }
    requires desk_room_in_bounds { at + desk_room ≤ length buf.old }
    ensures { Answered (Replies (ReadsRing t.now) (λ q. AfterPrints k q.0 q.1)) buf.old at result buf.new }
{
    let e = text_spell_inner::piece_end(t, b' ');
    if t.len() <= e {
        return Err(Refusal::Line);
    }
    ask_ring(k, &t[..e], &t[e + 1..], &mut w[..e], buf, at)
}

// What the text behind `after` prints, the line of a refusal left out.
fn after_asked(t: &[u8], buf: &mut [u8], at: usize) -> Result<usize, Refusal>
    requires t_len_bound { length t.now ≤ 4095 }
    requires desk_room_in_bounds { at + desk_room ≤ length buf.old }
    ensures { Answered (VerbSays verbs.After t.now) buf.old at result buf.new }
{
    let Some((k, e)) = desk_words_inner::head_of(t) else {
        return Err(Refusal::Line);
    };
    let mut w = [0u8; 4095];
    ask_words(k, &t[e..], &mut w, buf, at)
}

// What the text behind `after` prints.
pub fn place_after(t: &[u8], buf: &mut [u8], at: usize) -> usize
    requires t_len_bound { length t.now ≤ 4095 }
    requires desk_room_in_bounds { at + desk_room ≤ length buf.old }
    ensures { Puts (VerbSays verbs.After t.now) desk_room buf.old at result buf.new }
{
    let said = after_asked(t, buf, at);
    desk_texts_inner::place_said(buf, at, said)
}

// What the text behind `first` prints, the line of a refusal left out.
fn first_asked(t: &[u8], buf: &mut [u8], at: usize) -> Result<usize, Refusal>
    requires t_len_bound { length t.now ≤ 4095 }
    requires desk_room_in_bounds { at + desk_room ≤ length buf.old }
    ensures { Answered (VerbSays verbs.First t.now) buf.old at result buf.new }
{
    let Some((k, e)) = desk_words_inner::head_of(t) else {
        return Err(Refusal::Line);
    };
    let mut counts = [0usize; 4096];
    let Some(m) = desk_counts_inner::word_counts(&t[e..], &mut counts) else {
        return Err(Refusal::Line);
    };
    Ok(desk_first_inner::answer_first(k, &counts[..m], buf, at))
}

// What the text behind `first` prints: the counts stand behind k alone.
pub fn place_first(t: &[u8], buf: &mut [u8], at: usize) -> usize
    requires t_len_bound { length t.now ≤ 4095 }
    requires desk_room_in_bounds { at + desk_room ≤ length buf.old }
    ensures { Puts (VerbSays verbs.First t.now) desk_room buf.old at result buf.new }
{
    let said = first_asked(t, buf, at);
    desk_texts_inner::place_said(buf, at, said)
}
