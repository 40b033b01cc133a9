// The line that the listing program reads (01, 'The listing program'): k and n. Its parts serve other lines of numbers too.

#![tactic(auto)]

ghost use Rattle.line_spec.specs.Line.{ParseSays, FieldsSays, NumberSays, TwoSays};

// the most digits that a number of the line may have
const DIGITS: usize = 3;

// A number of one to three digits, with no leading zero.
pub fn parse_number(s: &[u8]) -> Option<usize>
    ensures { NumberSays s.now result }
{
    let m = s.len();
    if m < 1 {
        return None;
    }
    if DIGITS < m {
        return None;
    }
    if s[0] == b'0' {
        return if m == 1 { Some(0) } else { None };
    }
    let mut x: usize = 0;
    for &a in s {
        if !a.is_ascii_digit() {
            return None;
        }
        x = x * 10 + usize::from(a - b'0');
    }
    Some(x)
}

// Two texts that are a number each.
fn parse_two(a: &[u8], b: &[u8]) -> Option<(usize, usize)>
    ensures { TwoSays a.now b.now result }
{
    Some((parse_number(a)?, parse_number(b)?))
}

// Two numbers and a space between them, the line without its newline. A second space would stand in the second number, which has only digits.
pub fn parse_fields(s: &[u8]) -> Option<(usize, usize)>
    ensures { FieldsSays s.now result }
{
    let at = text_spell_inner::piece_end(s, b' ');
    if s.len() <= at {
        return None;
    }
    parse_two(&s[..at], &s[at + 1..])
}

// The whole line: k and n, the newline optional.
pub fn parse_line(s: &[u8]) -> Option<(usize, usize)>
    ensures { ParseSays s.now result }
{
    let (&last, front) = s.split_last()?;
    if last == b'\n' {
        return parse_fields(front);
    }
    parse_fields(s)
}
