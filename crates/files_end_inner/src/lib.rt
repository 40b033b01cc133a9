// What stands behind the last record of a catalogue, placed into a lent buffer. No public calls.

#![tactic(auto)]

ghost use Rattle.std.specs.Prelude.{◌+◌, ◌≤◌, ◌≡◌, length, Ok, Err};
ghost use Rattle.stream_spec.specs.Blocks.{Puts};
ghost use Rattle.files_spec.specs.Shows.{last_text};
ghost use Rattle.files_end_inner.specs.Room.{end_room};

use files_spec::Job;
use refusal::Refusal;

// What stands behind the last record of a good catalogue.
pub fn place_end(job: Job, buf: &mut [u8], at: usize) -> usize
    requires { at + end_room ≤ length buf.old }
    ensures { Puts (λ t. t ≡ last_text job (Ok tt)) end_room buf.old at result buf.new }
{
    match job {
        Job::Read => text_digits_inner::place_text(buf, at, b"end\n"),
        Job::Move => at,
    }
}

// What stands behind the last good record of a damaged one.
pub fn place_damage(job: Job, r: Refusal, buf: &mut [u8], at: usize) -> usize
    requires { at + end_room ≤ length buf.old }
    ensures { Puts (λ t. t ≡ last_text job (Err r)) end_room buf.old at result buf.new }
{
    match job {
        Job::Read => {
            let number = refusal::number(r);
            let place = refusal::place(r);
            text_lines_inner::place_two(buf, at, b"refused ", number, b" at ", place)
        }
        Job::Move => at,
    }
}
