// Classifying a reading (01, 'Rules the work stands on').

#![tactic(auto)]

ghost use Rattle.classify_spec.specs.Says.{ClassifySays};

use refusal::Refusal;
use rings::Class;

// The class of a reading, or refusal 1, 2 or 3.
pub fn classify(s: &[u8], k: usize) -> Result<Class, Refusal>
    ensures { ClassifySays s.now k result }
{
    check_readings_inner::check_reading(s, k)?;
    Ok(classify_inner::class_of(s))
}
