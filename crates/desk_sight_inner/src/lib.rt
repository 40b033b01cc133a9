// A reading looked for among rings: its words, and what they print. No public calls.

#![tactic(auto)]

ghost use Rattle.std.specs.Prelude.{◌+◌, ◌-◌, ◌≤◌, length, take, drop};
ghost use Rattle.stream_spec.specs.Blocks.{Puts};
ghost use Rattle.desk_spec.specs.declared.Verb.TheVariants as verbs;
ghost use Rattle.desk_spec.specs.Questions.{Replies};
ghost use Rattle.desk_spec.specs.Texts.{sight_text};
ghost use Rattle.desk_spec.specs.Answers.{AnswerShows, VerbSays};
ghost use Rattle.desk_texts_inner.specs.Says.{desk_room, Answered};
ghost use Rattle.desk_rings_inner.specs.Says.{ReadsRings};
ghost use Rattle.desk_sight_lengths_inner.specs.Says.{TellSays};
ghost use Rattle.desk_sight_inner.specs.Says.{SeenAmong, HeadsSay};

use refusal::Refusal;

// The rings lie up to the place l, and the reading from there up to the place m.
fn answer_sight(
    k: usize,
    most: usize,
    sectors: &[u8],
    l: usize,
    m: usize,
    alike: bool,
    buf: &mut [u8],
    at: usize,
) -> Result<usize, Refusal>
    requires l_le_m { l ≤ m }
    requires m_in_bounds { m ≤ length sectors.now }
    requires desk_room_in_bounds { at + desk_room ≤ length buf.old }
    ensures { Answered (AnswerShows (TellSays (take l sectors.now) (take (m - l) (drop l sectors.now)) k most alike) sight_text) buf.old at result buf.new }
{
    let a = desk_sight_lengths_inner::tell(&sectors[..l], &sectors[l..m], alike, k, most)?;
    Ok(desk_sight_text_inner::place_sighting(buf, at, Ok(a)))
}

// The rings and the reading are spelt into the lent bytes, end to end.
fn ask_sight(
    k: usize,
    most: usize,
    u: &[u8],
    out: &mut [u8],
    buf: &mut [u8],
    at: usize,
) -> Result<usize, Refusal>
    requires u_in_bounds { length u.now ≤ length out.old }
    requires desk_room_in_bounds { at + desk_room ≤ length buf.old }
    ensures { Answered (Replies (ReadsRings u.now) (SeenAmong k most)) buf.old at result buf.new }
{
    let Some((l, m)) = desk_rings_inner::spell_words(u, out) else {
        return Err(Refusal::Line);
    };
    let alike = desk_rings_inner::each_long(u, m - l);
    answer_sight(k, most, out, l, m, alike, buf, at)
}

// The two numbers in front of the rings, k and how many sectors may be misread, and the place behind them.
fn heads_of(t: &[u8]) -> Option<(usize, usize, usize)>
    ensures { HeadsSay t.now result }
{
    let (k, e) = desk_words_inner::head_of(t)?;
    let (most, f) = desk_words_inner::head_of(&t[e..])?;
    Some((k, most, e + f))
}

// What the text behind `sight` prints, the line of a refusal left out.
fn sight_asked(t: &[u8], buf: &mut [u8], at: usize) -> Result<usize, Refusal>
    requires t_len_bound { length t.now ≤ 4095 }
    requires desk_room_in_bounds { at + desk_room ≤ length buf.old }
    ensures { Answered (VerbSays verbs.Sight t.now) buf.old at result buf.new }
{
    let Some((k, most, e)) = heads_of(t) else {
        return Err(Refusal::Line);
    };
    let mut out = [0u8; 4095];
    ask_sight(k, most, &t[e..], &mut out, buf, at)
}

// What the text behind `sight` prints.
pub fn place_sight(t: &[u8], buf: &mut [u8], at: usize) -> usize
    requires t_len_bound { length t.now ≤ 4095 }
    requires desk_room_in_bounds { at + desk_room ≤ length buf.old }
    ensures { Puts (VerbSays verbs.Sight t.now) desk_room buf.old at result buf.new }
{
    let said = sight_asked(t, buf, at);
    desk_texts_inner::place_said(buf, at, said)
}
