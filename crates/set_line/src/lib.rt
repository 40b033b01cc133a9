// The line of a chart job (02, g): n, k, the distance and the wanted number, written as the two numbers of the listing program's line.

#![tactic(auto)]

ghost use Rattle.set_line_spec.specs.Line.{SpellSays, FourSays, SecondSpace};

// The second space, or the length where there are not two.
fn second_space(s: &[u8]) -> usize
    ensures { SecondSpace s.now result }
{
    let first = text_spell_inner::piece_end(s, b' ');
    let m = s.len();
    if m <= first {
        return m;
    }
    let from = first + 1;
    from + text_spell_inner::piece_end(&s[from..], b' ')
}

// The line without its newline: two numbers before the second space and two behind it.
fn parse_four(s: &[u8]) -> Option<(usize, usize, usize, usize)>
    ensures { FourSays s.now result }
{
    let at = second_space(s);
    if s.len() <= at {
        return None;
    }
    let (n, k) = line::parse_fields(&s[..at])?;
    let (d, wanted) = line::parse_fields(&s[at + 1..])?;
    Some((n, k, d, wanted))
}

// The whole line, the newline optional.
pub fn parse_set(s: &[u8]) -> Option<(usize, usize, usize, usize)>
    ensures { SpellSays s.now result }
{
    let (&last, front) = s.split_last()?;
    if last == b'\n' {
        return parse_four(front);
    }
    parse_four(s)
}
