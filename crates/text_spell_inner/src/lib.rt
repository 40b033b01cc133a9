// The words of a line, and readings spelt by digits, read. No public calls.

#![tactic(auto)]

ghost use Rattle.std.specs.Prelude.{◌≡◌, length};
ghost use Rattle.words.specs.Order.{same};
ghost use Rattle.text_words_spec.specs.Words.{PieceAt};
ghost use Rattle.text_spell_inner.specs.Says.{DigitSays, SpelledSays};

// Whether two texts are the same.
#[tactic(auto, using(crate::proofs::Spelling::same_eq))]
pub fn same_text(a: &[u8], b: &[u8]) -> bool
    ensures { result ≡ same a.now b.now }
{
    a == b
}

// Where the first piece ends: the first separator, or the length where there is none.
pub fn piece_end(s: &[u8], sep: u8) -> usize
    ensures { PieceAt sep s.now result }
{
    s.iter().position(|&c| c == sep).unwrap_or(s.len())
}

// The value of a digit.
pub fn value_of(c: u8) -> Option<u8>
    ensures { DigitSays c result }
{
    match c {
        b'0'..=b'9' => Some(c - b'0'),
        b'a'..=b'f' => Some(c - b'a' + 10),
        _ => None,
    }
}

// Writes the sectors that the digits spell; false where one is no digit.
pub fn spell(t: &[u8], out: &mut [u8]) -> bool
    requires { length out.old ≡ length t.now }
    ensures { SpelledSays t.now result out.new }
{
    for (i, &c) in t.iter().enumerate() {
        let Some(a) = value_of(c) else {
            return false;
        };
        out[i] = a;
    }
    true
}
