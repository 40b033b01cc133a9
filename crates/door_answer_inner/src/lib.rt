// Answers of one number, and refusals, as the structs that C knows. No public calls.

#![tactic(auto)]

ghost use Rattle.std.specs.Prelude.{◌≡◌};
ghost use Rattle.door_spec.specs.Flat.{answered, refused_by, flat_number, flat_done, flat_told};

use door_spec::RingsAnswer;
use refusal::Refusal;

pub fn value(x: usize) -> RingsAnswer
    ensures { result ≡ answered x }
{
    RingsAnswer {
        refused: 0,
        place: 0,
        value: x,
    }
}

pub fn refused(r: Refusal) -> RingsAnswer
    ensures { result ≡ refused_by r }
{
    RingsAnswer {
        refused: refusal::number(r),
        place: refusal::place(r),
        value: 0,
    }
}

pub fn number(a: Result<usize, Refusal>) -> RingsAnswer
    ensures { result ≡ flat_number a }
{
    match a {
        Ok(x) => value(x),
        Err(r) => refused(r),
    }
}

pub fn done(a: Result<(), Refusal>) -> RingsAnswer
    ensures { result ≡ flat_done a }
{
    match a {
        Ok(()) => value(1),
        Err(r) => refused(r),
    }
}

pub fn told(a: Result<bool, Refusal>) -> RingsAnswer
    ensures { result ≡ flat_told a }
{
    match a {
        Ok(yes) => value(usize::from(yes)),
        Err(r) => refused(r),
    }
}
