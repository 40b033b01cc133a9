// Old catalogues turned into new ones (02, j). What converting promises stands in `converter_spec`.

#![tactic(auto)]

ghost use Rattle.converter_spec.specs.Converts.{ConvertSays};

use refusal::Refusal;

// Writes the catalogue with each back record replaced by the front record of its front ring and every other record as it is; or refusal 4, and then that of
// the first record that the old reader refused: 7, 8, 1, 2, 7, 3 or 9. Nothing is written before the whole catalogue is known to be good.
pub fn convert(old: &[u8], out: &mut [u8]) -> Result<(), Refusal>
    ensures { ConvertSays old.now out.old result out.new }
{
    if out.len() != old.len() {
        return Err(Refusal::Room);
    }
    converter_sound_inner::check_all(old)?;
    converter_turn_inner::write_all(old, out);
    Ok(())
}
