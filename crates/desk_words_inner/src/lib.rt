// The first of some words or pieces, a number, and where the text goes on. No public calls.

#![tactic(auto)]

ghost use Rattle.desk_words_inner.specs.Says.{HeadAtSays, HeadSays};

// A number and a further piece behind it: the number, and where the text goes on behind its separator; or that there are none.
pub fn head_at(t: &[u8], sep: u8) -> Option<(usize, usize)>
    ensures { HeadAtSays sep t.now result }
{
    let e = text_spell_inner::piece_end(t, sep);
    if t.len() <= e {
        return None;
    }
    let k = line::parse_number(&t[..e])?;
    Some((k, e + 1))
}

// The same of words, between spaces.
pub fn head_of(t: &[u8]) -> Option<(usize, usize)>
    ensures { HeadSays t.now result }
{
    head_at(t, b' ')
}
