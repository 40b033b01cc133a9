// The strip along the frame and how many rings there are, exported under plain C names (`include/rings.h`): each promises the form in numbers of an answer that the call
// promises (`Flat` of `door_spec`).

#![tactic(auto)]

ghost use Rattle.rings.specs.Necklace.{necklace, lyndon};
ghost use Rattle.strip_spec.specs.Says.{StripSays, PlaceSays};
ghost use Rattle.how_many_spec.specs.Says.{CountSays};
ghost use Rattle.door_spec.specs.Flat.{Flat, flat_strip, flat_position, flat_counted};

use door_spec::RingsAnswer;

// ---- strips

#[unsafe(no_mangle)]
pub extern "C" fn rings_strip(n: usize, k: usize, out: &mut [u8]) -> RingsAnswer
    ensures { Flat (λ a. StripSays n k out.old a out.new) flat_strip result }
{
    door_answer_inner::done(strip::write_strip(n, k, out))
}

#[unsafe(no_mangle)]
pub extern "C" fn rings_place(reading: &[u8], k: usize) -> RingsAnswer
    ensures { Flat (PlaceSays reading.now k) flat_position result }
{
    door_answer_inner::number(strip::place_of(reading, k))
}

// ---- how many

#[unsafe(no_mangle)]
pub extern "C" fn rings_necklaces(k: usize, n: usize) -> RingsAnswer
    ensures { Flat (CountSays necklace k n) flat_counted result }
{
    door_answer_inner::number(how_many::necklaces(k, n))
}

#[unsafe(no_mangle)]
pub extern "C" fn rings_lyndon_words(k: usize, n: usize) -> RingsAnswer
    ensures { Flat (CountSays lyndon k n) flat_counted result }
{
    door_answer_inner::number(how_many::lyndon_words(k, n))
}
