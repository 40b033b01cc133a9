// What the desk prints of a step from a reading, placed into a lent buffer. No public calls.

#![tactic(auto, unfolding(text_fill_spec::specs::Filled::longest, text_fill_spec::specs::Filled::slots))]

ghost use Rattle.std.specs.Prelude.{◌+◌, ◌≤◌, length};
ghost use Rattle.desk_spec.specs.Texts.{step_text, arrival_text};
ghost use Rattle.desk_texts_inner.specs.Says.{desk_room, longest_ring, LinePrinted};

use refusal::Refusal;
use walk_bracelet_spec::Arrival;
use walk_spec::Outcome;

// A step to the next of a kind, with the moves.
pub fn place_outcome(buf: &mut [u8], at: usize, a: Result<Outcome, Refusal>, ring: &[u8]) -> usize
    requires ring_len_bound { length ring.now ≤ longest_ring }
    requires desk_room_in_bounds { at + desk_room ≤ length buf.old }
    ensures { LinePrinted buf.old at (step_text a ring.now) result buf.new }
{
    match a {
        Ok(Outcome::Moved(m)) => desk_texts_inner::place_line(
            buf,
            at,
            b"next @ moves %\n",
            &[m],
            ring.len(),
            ring,
        ),
        Ok(Outcome::Done(m)) => desk_texts_inner::place_number(buf, at, b"done moves %\n", m),
        Err(r) => desk_texts_inner::place_refusal(buf, at, r),
    }
}

// A step to the next bracelet.
pub fn place_arrival(buf: &mut [u8], at: usize, a: Result<Arrival, Refusal>, ring: &[u8]) -> usize
    requires ring_len_bound { length ring.now ≤ longest_ring }
    requires desk_room_in_bounds { at + desk_room ≤ length buf.old }
    ensures { LinePrinted buf.old at (arrival_text a ring.now) result buf.new }
{
    match a {
        Ok(Arrival::Moved) => desk_texts_inner::place_ring_line(buf, at, b"next @\n", ring),
        Ok(Arrival::Done) => desk_texts_inner::place_done(buf, at),
        Err(r) => desk_texts_inner::place_refusal(buf, at, r),
    }
}
