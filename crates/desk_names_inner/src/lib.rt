// A verb by its name, or by one of two; and the names of the questions about one reading. No public calls.

#![tactic(auto)]

ghost use Rattle.std.specs.Prelude.{◌≡◌};
ghost use Rattle.desk_spec.specs.Verbs.{named, about_of, step_of};

use desk_spec::{About, Step, Verb};

// The verb v where the word t is this name, else what follows.
pub fn or_named(t: &[u8], name: &[u8], v: Verb, next: Option<Verb>) -> Option<Verb>
    ensures { result ≡ named t.now name.now v next }
{
    if text_spell_inner::same_text(t, name) {
        return Some(v);
    }
    next
}

// One of two names, else what follows.
pub fn or_either(t: &[u8], a: &[u8], u: Verb, b: &[u8], v: Verb, next: Option<Verb>) -> Option<Verb>
    ensures { result ≡ named t.now a.now u (named t.now b.now v next) }
{
    or_named(t, a, u, or_named(t, b, v, next))
}

// The class of a reading, its home, whether it is even-handed, its place on the strip.
pub fn about_of(t: &[u8]) -> Option<Verb>
    ensures { result ≡ about_of t.now }
{
    let c = or_either(
        t,
        b"even",
        Verb::About(About::Even),
        b"place",
        Verb::About(About::Place),
        None,
    );
    or_either(
        t,
        b"class",
        Verb::About(About::Class),
        b"home",
        Verb::About(About::Home),
        c,
    )
}

// A step from it.
pub fn step_of(t: &[u8]) -> Option<Verb>
    ensures { result ≡ step_of t.now }
{
    let c = or_either(
        t,
        b"prenecklace",
        Verb::About(About::Step(Step::Prenecklace)),
        b"bracelet",
        Verb::About(About::Step(Step::Bracelet)),
        None,
    );
    or_either(
        t,
        b"next",
        Verb::About(About::Step(Step::Necklace)),
        b"lyndon",
        Verb::About(About::Step(Step::Lyndon)),
        c,
    )
}
