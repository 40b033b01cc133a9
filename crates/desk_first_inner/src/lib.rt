// The first ring of fixed counts: as long as their sum. No public calls.

#![tactic(auto)]

ghost use Rattle.std.specs.Prelude.{◌+◌, ◌≤◌, length};
ghost use Rattle.stream_spec.specs.Blocks.{Puts};
ghost use Rattle.desk_spec.specs.Answers.{FirstPrints};
ghost use Rattle.desk_texts_inner.specs.Says.{desk_room, longest_ring, Answered};
ghost use Rattle.desk_first_inner.specs.Says.{SumWithin, FirstIn};

use refusal::Refusal;

// The sum of the counts, or 65 where it is above 64. Nothing wraps.
fn sum_within(counts: &[usize]) -> usize
    ensures { SumWithin counts.now result }
{
    let mut sum = 0;
    for &x in counts {
        if 64 - sum < x {
            return 65;
        }
        sum += x;
    }
    sum
}

// The ring in an output of any length.
fn answer_in(
    k: usize,
    counts: &[usize],
    out: &mut [u8],
    buf: &mut [u8],
    at: usize,
) -> Result<usize, Refusal>
    requires out_len_bound { length out.old ≤ longest_ring }
    requires desk_room_in_bounds { at + desk_room ≤ length buf.old }
    ensures { Answered (FirstIn k counts.now out.old) buf.old at result buf.new }
{
    shades::first_ring(k, counts, out)?;
    Ok(desk_texts_inner::place_ring(buf, at, out))
}

// What the counts print, the line of a refusal left out.
fn first_asked(k: usize, counts: &[usize], buf: &mut [u8], at: usize) -> Result<usize, Refusal>
    requires { at + desk_room ≤ length buf.old }
    ensures { Answered (FirstPrints k counts.now) buf.old at result buf.new }
{
    let n = sum_within(counts);
    let mut out = [0u8; 65];
    answer_in(k, counts, &mut out[..n], buf, at)
}

// A ring of more than 64 sectors is refused whatever its length: an output of 65 stands for them all.
pub fn answer_first(k: usize, counts: &[usize], buf: &mut [u8], at: usize) -> usize
    requires { at + desk_room ≤ length buf.old }
    ensures { Puts (FirstPrints k counts.now) desk_room buf.old at result buf.new }
{
    let said = first_asked(k, counts, buf, at);
    desk_texts_inner::place_said(buf, at, said)
}
