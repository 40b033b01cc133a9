// The steps from a reading and the rings of fixed shade counts, exported under plain C names (`include/rings.h`): each promises the form in numbers of an answer that the
// call promises (`Flat` of `door_spec`). A walk's record is not handed out: a caller in C keeps the ring alone.

#![tactic(auto)]

ghost use Rattle.std.specs.Prelude.{◌≡◌};
ghost use Rattle.rings.specs.Necklace.{necklace, lyndon};
ghost use Rattle.rings.specs.Prenecklace.{prenecklace};
ghost use Rattle.walk_reading_spec.specs.Says.{StepFromSays, BraceletFromSays};
ghost use Rattle.shades_spec.specs.Answers.{FirstSays, NextSays};
ghost use Rattle.door_spec.specs.Flat.{Flat, flat_outcome, flat_arrival, flat_first, flat_next};

use door_spec::{RingsAnswer, RingsStep};
use refusal::Refusal;
use shades_spec::Next;
use walk_bracelet_spec::Arrival;
use walk_spec::Outcome;

// ---- steps

fn flat_outcome(a: Result<Outcome, Refusal>) -> RingsStep
    ensures { result ≡ flat_outcome a }
{
    match a {
        Ok(Outcome::Moved(m)) => RingsStep {
            refused: 0,
            place: 0,
            moved: 1,
            moves: m,
        },
        Ok(Outcome::Done(m)) => RingsStep {
            refused: 0,
            place: 0,
            moved: 0,
            moves: m,
        },
        Err(r) => RingsStep {
            refused: refusal::number(r),
            place: refusal::place(r),
            moved: 0,
            moves: 0,
        },
    }
}

#[unsafe(no_mangle)]
pub extern "C" fn rings_next_prenecklace(reading: &[u8], k: usize, out: &mut [u8]) -> RingsStep
    ensures { Flat (λ a. StepFromSays prenecklace reading.now k out.old a out.new) flat_outcome result }
{
    flat_outcome(walk_reading::next_prenecklace(reading, k, out))
}

#[unsafe(no_mangle)]
pub extern "C" fn rings_next_necklace(reading: &[u8], k: usize, out: &mut [u8]) -> RingsStep
    ensures { Flat (λ a. StepFromSays necklace reading.now k out.old a out.new) flat_outcome result }
{
    flat_outcome(walk_reading::next_necklace(reading, k, out))
}

#[unsafe(no_mangle)]
pub extern "C" fn rings_next_lyndon(reading: &[u8], k: usize, out: &mut [u8]) -> RingsStep
    ensures { Flat (λ a. StepFromSays lyndon reading.now k out.old a out.new) flat_outcome result }
{
    flat_outcome(walk_reading::next_lyndon(reading, k, out))
}

fn flat_arrival(a: Result<Arrival, Refusal>) -> RingsAnswer
    ensures { result ≡ flat_arrival a }
{
    match a {
        Ok(Arrival::Moved) => door_answer_inner::value(1),
        Ok(Arrival::Done) => door_answer_inner::value(0),
        Err(r) => door_answer_inner::refused(r),
    }
}

#[unsafe(no_mangle)]
pub extern "C" fn rings_next_bracelet(reading: &[u8], k: usize, out: &mut [u8]) -> RingsAnswer
    ensures { Flat (λ a. BraceletFromSays reading.now k out.old a out.new) flat_arrival result }
{
    flat_arrival(walk_reading::next_bracelet(reading, k, out))
}

// ---- fixed shade counts

#[unsafe(no_mangle)]
pub extern "C" fn rings_first_ring(k: usize, counts: &[usize], out: &mut [u8]) -> RingsAnswer
    ensures { Flat (λ a. FirstSays k counts.now out.old a out.new) flat_first result }
{
    door_answer_inner::done(shades::first_ring(k, counts, out))
}

fn flat_next(a: Result<Next, Refusal>) -> RingsAnswer
    ensures { result ≡ flat_next a }
{
    match a {
        Ok(Next::Ring) => door_answer_inner::value(1),
        Ok(Next::Done) => door_answer_inner::value(0),
        Err(r) => door_answer_inner::refused(r),
    }
}

#[unsafe(no_mangle)]
pub extern "C" fn rings_next_ring(
    reading: &[u8],
    k: usize,
    counts: &[usize],
    out: &mut [u8],
) -> RingsAnswer
    ensures { Flat (λ a. NextSays reading.now k counts.now out.old a out.new) flat_next result }
{
    flat_next(shades::next_ring(reading, k, counts, out))
}
