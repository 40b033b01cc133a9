// The words of the command for a sheet, read. No public calls.

#![tactic(auto)]

ghost use Rattle.std.specs.Prelude.{◌≡◌};
ghost use Rattle.text_spec.specs.Ascii.{space};
ghost use Rattle.text_words_spec.specs.Words.{pieces};
ghost use Rattle.sheet_words_spec.specs.Words.{number_in, number_or_other, word_of, awaiting, nothing_asked, one_number, plain_for, wish_for, meant_number, meant_name, meant, asked, fitted};
ghost use Rattle.sheet_words_spec.specs.Words.{with_source, with_tone, with_columns};
ghost use Rattle.sheet_words_inner.specs.Says.{EndsAs, ReadsAs};

use picture_spec::Tone;
use sheet_spec::{Sheet, Source};
use sheet_words_spec::{Asked, Awaits, Word};

// What a word is that is no name.
fn number_or_other(t: &[u8]) -> Word
    ensures { result ≡ number_or_other (number_in t.now) }
{
    match line::parse_number(t) {
        None => Word::Other,
        Some(x) => Word::Number(x),
    }
}

// What a word is.
fn word_of(t: &[u8]) -> Word
    ensures { result ≡ word_of t.now }
{
    if t == b"plain".as_slice() {
        return Word::Plain;
    }
    if t == b"levels".as_slice() {
        return Word::Levels;
    }
    if t == b"size".as_slice() {
        return Word::Size;
    }
    if t == b"columns".as_slice() {
        return Word::Columns;
    }
    number_or_other(t)
}

// The sheet with another source, gray or number of columns.
fn with_source(x: Source, o: Sheet) -> Sheet
    ensures { result ≡ with_source x o }
{
    Sheet { source: x, ..o }
}

fn with_tone(x: Tone, o: Sheet) -> Sheet
    ensures { result ≡ with_tone x o }
{
    Sheet { tone: x, ..o }
}

fn with_columns(x: usize, o: Sheet) -> Sheet
    ensures { result ≡ with_columns x o }
{
    Sheet { columns: x, ..o }
}

// One number was given: it is K, and the rings are one's own.
fn one_number(o: Sheet) -> Sheet
    ensures { result ≡ one_number o }
{
    with_source(Source::Own, Sheet { n: 0, k: o.n, ..o })
}

// What was asked, and what may stand next.
fn awaiting(awaits: Awaits, sheet: Sheet) -> Asked
    ensures { result ≡ awaiting awaits sheet }
{
    Asked { sheet, awaits }
}

// The plain choice, where a guarded one stood.
fn plain_for(o: Sheet) -> Asked
    ensures { result ≡ plain_for o.source o }
{
    match o.source {
        Source::Guarded => awaiting(Awaits::Wish, with_source(Source::Plain, o)),
        Source::Plain | Source::Own => awaiting(Awaits::Wrong, o),
    }
}

// A wish.
fn wish_for(v: Word, o: Sheet) -> Asked
    ensures { result ≡ wish_for v o }
{
    match v {
        Word::Plain => plain_for(o),
        Word::Levels => awaiting(Awaits::Wish, with_tone(Tone::Levels, o)),
        Word::Size => awaiting(Awaits::Size, o),
        Word::Columns => awaiting(Awaits::Columns, o),
        Word::Number(_) | Word::Other => awaiting(Awaits::Wrong, o),
    }
}

// What a number means.
fn meant_number(a: Awaits, x: usize, o: Sheet) -> Asked
    ensures { result ≡ meant_number a x o }
{
    match a {
        Awaits::First => awaiting(Awaits::Second, Sheet { n: x, ..o }),
        Awaits::Second => awaiting(Awaits::Third, Sheet { k: x, ..o }),
        Awaits::Third => awaiting(Awaits::Fourth, Sheet { d: x, ..o }),
        Awaits::Fourth => awaiting(Awaits::Wish, Sheet { wanted: x, ..o }),
        Awaits::Size => awaiting(Awaits::Wish, Sheet { size: x, ..o }),
        Awaits::Columns => awaiting(Awaits::Wish, Sheet { columns: x, ..o }),
        Awaits::Wish | Awaits::Wrong => awaiting(Awaits::Wrong, o),
    }
}

// What a name means.
fn meant_name(a: Awaits, v: Word, o: Sheet) -> Asked
    ensures { result ≡ meant_name a v o }
{
    match a {
        Awaits::Second => wish_for(v, one_number(o)),
        Awaits::Wish => wish_for(v, o),
        _ => awaiting(Awaits::Wrong, o),
    }
}

// What a word means behind those before it.
fn meant_by(v: Word, a: Asked) -> Asked
    ensures { result ≡ meant v a }
{
    match v {
        Word::Number(x) => meant_number(a.awaits, x, a.sheet),
        _ => meant_name(a.awaits, v, a.sheet),
    }
}

// What the words of a line mean, one after another.
fn read_words(t: &[u8], first: Asked) -> Asked
    ensures { result ≡ asked (pieces space t.now) first }
{
    t.split(|&c| c == b' ')
        .fold(first, |a, word| meant_by(word_of(word), a))
}

// The columns: where none were asked for, as many as fit.
fn fit_columns(o: Sheet) -> Sheet
    ensures { result ≡ fitted o }
{
    if o.columns != 0 {
        return o;
    }
    if 196 < o.size {
        return with_columns(0, o);
    }
    with_columns(210 / (o.size + 14), o)
}

// Before the first word.
fn nothing_asked() -> Asked
    ensures { result ≡ nothing_asked }
{
    let sheet = Sheet {
        n: 0,
        k: 0,
        d: 0,
        wanted: 0,
        source: Source::Guarded,
        tone: Tone::Managed,
        size: 24,
        columns: 0,
    };
    awaiting(Awaits::First, sheet)
}

// The sheet that the words ask for, if they may end there.
fn finish(a: Asked) -> Option<Sheet>
    ensures { EndsAs a.awaits a.sheet result }
{
    match a.awaits {
        Awaits::Second => Some(fit_columns(one_number(a.sheet))),
        Awaits::Wish => Some(fit_columns(a.sheet)),
        _ => None,
    }
}

// The sheet that a line asks for, its newline left out, if it asks for one.
pub fn read_line(t: &[u8]) -> Option<Sheet>
    ensures { ReadsAs t.now result }
{
    finish(read_words(t, nothing_asked()))
}
