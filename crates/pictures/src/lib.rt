// Targets as pictures: a dot inside a ring of shaded sectors, as SVG text.

#![tactic(auto)]

ghost use Rattle.picture_spec.specs.Says.{DrawSays};

pub use picture_spec::Tone;
use refusal::Refusal;

// No picture is longer.
const ROOM: usize = 16768;

// Writes the picture of a reading to the beginning of the buffer and answers how long it is, or refusal 1, 2, 3 or 4.
pub fn draw(reading: &[u8], k: usize, tone: Tone, buf: &mut [u8]) -> Result<usize, Refusal>
    ensures { DrawSays tone reading.now k buf.old result buf.new }
{
    check_readings_inner::check_reading(reading, k)?;
    if buf.len() < ROOM {
        return Err(Refusal::Room);
    }
    Ok(picture_inner::place_picture(buf, 0, reading, k, tone))
}
