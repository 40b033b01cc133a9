// How many rings there are (02, request f): the exact numbers of necklaces and of Lyndon words, by the divisor formulas.

#![tactic(auto)]

ghost use Rattle.rings.specs.Necklace.{necklace, lyndon};
ghost use Rattle.how_many_spec.specs.Says.{CountSays};

use refusal::Refusal;

// The greatest power that is not Too many: 2 to the power 32.
pub const MOST: usize = 4294967296;

// How many necklaces of n sectors and k shades there are.
pub fn necklaces(k: usize, n: usize) -> Result<usize, Refusal>
    ensures { CountSays necklace k n result }
{
    limits::plan_numbers(k, n, MOST)?;
    Ok(how_many_sums_inner::necklaces_of(k, n))
}

// How many Lyndon words of n sectors and k shades there are.
pub fn lyndon_words(k: usize, n: usize) -> Result<usize, Refusal>
    ensures { CountSays lyndon k n result }
{
    limits::plan_numbers(k, n, MOST)?;
    Ok(how_many_sums_inner::lyndon_of(k, n))
}
