// Writing the records of a catalogue (02, a and k). A record and what is promised of writing it stand in `record_spec`.

#![tactic(auto)]

ghost use Rattle.record_spec.specs.Writes.{WriteSays};

use record_spec::HEAD;
pub use record_spec::Kind;
use refusal::Refusal;

// Writes the record of the ring of `reading`, which shows it from the front, in the form of that kind, at the place `at` of the buffer, and answers the place after it; or refusal 1, 2, 3
// or 7, in this order.
pub fn write_record(
    reading: &[u8],
    k: usize,
    kind: Kind,
    buffer: &mut [u8],
    at: usize,
) -> Result<usize, Refusal>
    ensures { WriteSays reading.now k kind buffer.old at result buffer.new }
{
    check_readings_inner::check_reading(reading, k)?;
    let size = HEAD + record_stored_inner::body_length(kind, reading.len(), k);
    if buffer.len().saturating_sub(at) < size {
        return Err(Refusal::Cut(at));
    }
    record_put_inner::put_record(reading, k, kind, &mut buffer[at..]);
    Ok(at + size)
}
