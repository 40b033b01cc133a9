// What becomes of a block of an old catalogue, the first time through the file, which checks, and the second, which writes (02, j). No public calls: no contract can
// say what is read and written.

#![tactic(auto)]

ghost use Rattle.std.specs.Prelude.{◌≤◌, ◌<◌, ◌≡◌, true, false, length};
ghost use Rattle.program_passes_inner.specs.Passes.{limit, course_of};
ghost use Rattle.converter_pass_inner.specs.Says.{most_block, BuffersFit, BlockBecomes, AtSays};

use program_ending_inner::Ending;
use program_passes_inner::Turn;
use std::fs::File;

// The number of standard output.
const STDOUT_FILENO: i32 = 1;

// The first time, a block that begins at `at` of the catalogue.
fn check_block(at: usize, block: &[u8], last: bool) -> Result<Turn, Ending>
    requires at_lt_limit { at < limit }
    requires block_len_bound { length block.now ≤ most_block }
    ensures { BlockBecomes false at block.now last block.now (course_of result) }
{
    match converter_blocks::check(block, last) {
        Ok(m) => Ok(program_passes_inner::turn_by(last, m)),
        Err(r) => Err(Ending::Refused(refusal::number(r), at + refusal::place(r))),
    }
}

// The second time, a block: its whole records are converted and written. Where it is refused now, it is not the block that was checked.
fn convert_block(at: usize, block: &[u8], last: bool, new: &mut [u8]) -> Result<Turn, Ending>
    requires { length new.old ≡ length block.now }
    ensures { BlockBecomes true at block.now last new.new (course_of result) }
{
    let Ok(m) = converter_blocks::convert(block, last, new) else {
        return Err(Ending::Changed);
    };
    if !io::write_all(STDOUT_FILENO, &new[..m]) {
        return Err(Ending::Unwritten);
    }
    Ok(program_passes_inner::turn_by(last, m))
}

// A block, by which time it is.
fn take_block(
    writing: bool,
    at: usize,
    block: &[u8],
    last: bool,
    new: &mut [u8],
) -> Result<Turn, Ending>
    requires at_lt_limit { at < limit }
    requires block_len_bound { length block.now ≤ most_block }
    requires len { length new.old ≡ length block.now }
    ensures { BlockBecomes writing at block.now last new.new (course_of result) }
{
    if writing {
        return convert_block(at, block, last, new);
    }
    check_block(at, block, last)
}

// Reads a block from `at` on, and goes through it.
pub fn take_at(
    input: &mut File,
    writing: bool,
    at: usize,
    block: &mut [u8],
    new: &mut [u8],
) -> Result<Turn, Ending>
    requires at_lt_limit { at < limit }
    requires buffers_fit { BuffersFit block.old new.old }
    ensures { AtSays writing at block.new new.new (course_of result) }
{
    let Some(part) = program_passes_inner::read_block(input, at, block) else {
        return Err(program_passes_inner::failed(writing));
    };
    take_block(
        writing,
        at,
        &block[..part.len],
        part.last,
        &mut new[..part.len],
    )
}
