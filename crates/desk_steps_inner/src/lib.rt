// Steps from a reading: to the next necklace, Lyndon word, prenecklace or bracelet. No public calls.

#![tactic(auto)]

ghost use Rattle.std.specs.Prelude.{◌+◌, ◌≤◌, ◌≡◌, length};
ghost use Rattle.stream_spec.specs.Blocks.{Puts};
ghost use Rattle.desk_spec.specs.declared.Step.TheVariants as steps;
ghost use Rattle.desk_spec.specs.Texts.{step_text};
ghost use Rattle.desk_spec.specs.Answers.{StepPrints, blank};
ghost use Rattle.desk_texts_inner.specs.Says.{desk_room, longest_ring, Answered};

use desk_spec::Step;
use refusal::Refusal;
use walk_spec::Outcome;

// What a step to the next of a kind prints, by its answer and its output.
fn answer_kind(
    a: Result<Outcome, Refusal>,
    ring: &[u8],
    buf: &mut [u8],
    at: usize,
) -> Result<usize, Refusal>
    requires ring_len_bound { length ring.now ≤ longest_ring }
    requires desk_room_in_bounds { at + desk_room ≤ length buf.old }
    ensures { Answered (λ t. t ≡ step_text a ring.now) buf.old at result buf.new }
{
    let m = a?;
    Ok(desk_steps_text_inner::place_outcome(buf, at, Ok(m), ring))
}

// One ring from each mirror pair: its answer tells no moves.
fn answer_bracelet(
    k: usize,
    w: &[u8],
    out: &mut [u8],
    buf: &mut [u8],
    at: usize,
) -> Result<usize, Refusal>
    requires w_len_bound { length w.now ≤ 4095 }
    requires out_value { out.old ≡ blank (length w.now) }
    requires desk_room_in_bounds { at + desk_room ≤ length buf.old }
    ensures { Answered (StepPrints steps.Bracelet k w.now) buf.old at result buf.new }
{
    let a = walk_reading::next_bracelet(w, k, out)?;
    Ok(desk_steps_text_inner::place_arrival(buf, at, Ok(a), out))
}

// What a step prints, the line of a refusal left out.
fn step_asked(
    v: Step,
    k: usize,
    w: &[u8],
    out: &mut [u8],
    buf: &mut [u8],
    at: usize,
) -> Result<usize, Refusal>
    requires w_len_bound { length w.now ≤ 4095 }
    requires out_value { out.old ≡ blank (length w.now) }
    requires desk_room_in_bounds { at + desk_room ≤ length buf.old }
    ensures { Answered (StepPrints v k w.now) buf.old at result buf.new }
{
    match v {
        Step::Necklace => {
            let a = walk_reading::next_necklace(w, k, out);
            answer_kind(a, out, buf, at)
        }
        Step::Lyndon => {
            let a = walk_reading::next_lyndon(w, k, out);
            answer_kind(a, out, buf, at)
        }
        Step::Prenecklace => {
            let a = walk_reading::next_prenecklace(w, k, out);
            answer_kind(a, out, buf, at)
        }
        Step::Bracelet => answer_bracelet(k, w, out, buf, at),
    }
}

// What a step prints.
pub fn answer_step(v: Step, k: usize, w: &[u8], out: &mut [u8], buf: &mut [u8], at: usize) -> usize
    requires w_len_bound { length w.now ≤ 4095 }
    requires out_value { out.old ≡ blank (length w.now) }
    requires desk_room_in_bounds { at + desk_room ≤ length buf.old }
    ensures { Puts (StepPrints v k w.now) desk_room buf.old at result buf.new }
{
    let said = step_asked(v, k, w, out, buf, at);
    desk_texts_inner::place_said(buf, at, said)
}
