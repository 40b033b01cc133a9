// Old catalogues checked and converted block after block (02, j), for a catalogue of any size. What that promises stands in `converter_blocks_spec`.

#![tactic(auto)]

ghost use Rattle.converter_blocks_spec.specs.Blocks.{StretchSays, TurnSays};
ghost use Rattle.converter_blocks.specs.Says.{LeftSays};

use refusal::Refusal;

// A record that the block cuts is the next block's, where there is one.
fn left_over(r: Refusal, last: bool) -> Result<usize, Refusal>
    ensures { LeftSays r last result }
{
    match r {
        Refusal::Cut(m) if !last => Ok(m),
        _ => Err(r),
    }
}

// How many of the block's bytes are whole records, each of them good; or the refusal of the first record that is not, with its place in the block. A record that the
// block's end cuts is refused, 7, where the block is the catalogue's last; otherwise it is left for the next block, which begins with it.
pub fn check(block: &[u8], last: bool) -> Result<usize, Refusal>
    ensures { StretchSays block.now last result }
{
    match converter_sound_inner::check_all(block) {
        Ok(()) => Ok(block.len()),
        Err(r) => left_over(r, last),
    }
}

// The same, and the whole records, each as the front record of its front ring, at the beginning of the output; or refusal 4 where the output has not the block's
// length. A refusal writes nothing.
pub fn convert(block: &[u8], last: bool, out: &mut [u8]) -> Result<usize, Refusal>
    ensures { TurnSays block.now last out.old result out.new }
{
    if out.len() != block.len() {
        return Err(Refusal::Room);
    }
    let m = check(block, last)?;
    converter_turn_inner::write_all(&block[..m], &mut out[..m]);
    Ok(m)
}
