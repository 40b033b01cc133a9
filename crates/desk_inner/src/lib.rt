// What a line of the desk prints, placed into a lent buffer: its first word is a verb. No public calls.

#![tactic(auto)]

ghost use Rattle.std.specs.Prelude.{◌+◌, ◌<◌, ◌≤◌, ◌≡◌, length};
ghost use Rattle.stream_spec.specs.Blocks.{Puts};
ghost use Rattle.text_spec.specs.Ascii.{space};
ghost use Rattle.text_words_spec.specs.Words.{PieceAt};
ghost use Rattle.desk_spec.specs.Verbs.{both_of, count_of, strip_of, camera_of, shades_of, verb_of};
ghost use Rattle.desk_spec.specs.Answers.{VerbSays, DeskAnswers};
ghost use Rattle.desk_texts_inner.specs.Says.{desk_room, Answered};

use desk_spec::{Both, Verb};
use refusal::Refusal;

fn both_of(t: &[u8]) -> Option<Verb>
    ensures { result ≡ both_of t.now }
{
    desk_names_inner::or_either(
        t,
        b"same",
        Verb::Both(Both::Same),
        b"apart",
        Verb::Both(Both::Apart),
        None,
    )
}

fn count_of(t: &[u8]) -> Option<Verb>
    ensures { result ≡ count_of t.now }
{
    desk_names_inner::or_either(t, b"many", Verb::Many, b"stock", Verb::Stock, None)
}

fn strip_of(t: &[u8]) -> Option<Verb>
    ensures { result ≡ strip_of t.now }
{
    desk_names_inner::or_named(t, b"strip", Verb::Strip, None)
}

fn camera_of(t: &[u8]) -> Option<Verb>
    ensures { result ≡ camera_of t.now }
{
    desk_names_inner::or_either(t, b"sight", Verb::Sight, b"shade", Verb::Shade, None)
}

fn shades_of(t: &[u8]) -> Option<Verb>
    ensures { result ≡ shades_of t.now }
{
    desk_names_inner::or_either(t, b"first", Verb::First, b"after", Verb::After, None)
}

// The verb of a word, group after group.
fn verb_of(t: &[u8]) -> Option<Verb>
    ensures { result ≡ verb_of t.now }
{
    desk_names_inner::about_of(t)
        .or(both_of(t))
        .or(count_of(t))
        .or(desk_names_inner::step_of(t))
        .or(strip_of(t))
        .or(camera_of(t))
        .or(shades_of(t))
}

// What the text behind a verb prints.
fn place_verb(v: Verb, t: &[u8], buf: &mut [u8], at: usize) -> usize
    requires t_len_bound { length t.now ≤ 4095 }
    requires desk_room_in_bounds { at + desk_room ≤ length buf.old }
    ensures { Puts (VerbSays v t.now) desk_room buf.old at result buf.new }
{
    match v {
        Verb::About(x) => desk_about_inner::place_about(x, t, buf, at),
        Verb::Both(x) => desk_both_inner::place_both(x, t, buf, at),
        Verb::Many => desk_count_inner::place_many(t, buf, at),
        Verb::Stock => desk_count_inner::place_stock(t, buf, at),
        Verb::Strip => desk_strip_inner::place_strip(t, buf, at),
        Verb::Sight => desk_sight_inner::place_sight(t, buf, at),
        Verb::First => desk_counted_inner::place_first(t, buf, at),
        Verb::After => desk_counted_inner::place_after(t, buf, at),
        Verb::Shade => desk_shade_inner::place_shade(t, buf, at),
    }
}

// What a line prints whose first word ends at the place e.
fn place_word(line: &[u8], e: usize, buf: &mut [u8], at: usize) -> Result<usize, Refusal>
    requires line_len_bound { length line.now ≤ 4095 }
    requires piece_at { PieceAt space line.now e }
    requires e_in_bounds { e < length line.now }
    requires desk_room_in_bounds { at + desk_room ≤ length buf.old }
    ensures { Answered (DeskAnswers line.now) buf.old at result buf.new }
{
    let Some(v) = verb_of(&line[..e]) else {
        return Err(Refusal::Line);
    };
    Ok(place_verb(v, &line[e + 1..], buf, at))
}

// What a line prints, the line of a refusal left out.
fn answer_line(line: &[u8], buf: &mut [u8], at: usize) -> Result<usize, Refusal>
    requires { at + desk_room ≤ length buf.old }
    ensures { Answered (DeskAnswers line.now) buf.old at result buf.new }
{
    if 4095 < line.len() {
        return Err(Refusal::Line);
    }
    let e = text_spell_inner::piece_end(line, b' ');
    if line.len() <= e {
        return Err(Refusal::Line);
    }
    place_word(line, e, buf, at)
}

// What a line prints, its newline left out. A line that cannot be read is refused as any other.
pub fn place_answer(line: &[u8], buf: &mut [u8], at: usize) -> usize
    requires { at + desk_room ≤ length buf.old }
    ensures { Puts (DeskAnswers line.now) desk_room buf.old at result buf.new }
{
    let said = answer_line(line, buf, at);
    desk_texts_inner::place_said(buf, at, said)
}
