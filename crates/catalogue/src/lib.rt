// Reading the records of a catalogue (01, 'Catalogue records'). A record and what is promised of reading it stand in `record_spec`.

#![tactic(auto)]

ghost use Rattle.record_spec.specs.Says.{ReadSays};

pub use record_spec::{Kind, Record};
use refusal::Refusal;
use rings::MOST_SECTORS;

// Reads the record at `start` and writes its front ring, or answers End, or refusal 4, 7, 8, 16, 1, 2, 7, 3, 17 or 9, in this order.
pub fn read_record(
    catalogue: &[u8],
    start: usize,
    out: &mut [u8],
) -> Result<Option<Record>, Refusal>
    ensures { ReadSays catalogue.now start out.old result out.new }
{
    if out.len() != MOST_SECTORS {
        return Err(Refusal::Room);
    }
    let end = catalogue.len();
    if end < start {
        return Err(Refusal::Cut(start));
    }
    if start == end {
        return Ok(None);
    }
    let record = record_head_inner::read_head(&catalogue[start..], start, out)?;
    Ok(Some(record))
}
