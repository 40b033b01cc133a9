// What a line of the report prints (02, request f), placed into a lent buffer. No public calls: crate `report` sees to the room.

#![tactic(auto)]

ghost use Rattle.std.specs.Prelude.{◌+◌, ◌≤◌, length};
ghost use Rattle.rings.specs.Necklace.{necklace, lyndon};
ghost use Rattle.rings.specs.Steps.{how_many};
ghost use Rattle.refusal.specs.Numbers.{number_of};
ghost use Rattle.limits_spec.specs.Limits.{Listable};
ghost use Rattle.text_spec.specs.Text.{refused_line};
ghost use Rattle.text_spec.specs.Put.{Placed};
ghost use Rattle.how_many_spec.specs.Says.{most_counted};
ghost use Rattle.stream_spec.specs.Blocks.{Puts};
ghost use Rattle.report_spec.specs.Lines.{counts_line, Answers};
ghost use Rattle.report_spec.specs.Blocks.{line_room};

use how_many::MOST;
use refusal::Refusal;

// Two numbers, a space between them, and a newline.
fn place_counts(buf: &mut [u8], at: usize, x: usize, y: usize) -> usize
    requires { at + length (counts_line x y) ≤ length buf.old }
    ensures { Placed buf.old at (counts_line x y) result buf.new }
{
    let a = text_digits_inner::place_decimal(buf, at, x);
    let b = text_digits_inner::place_text(buf, a, b" ");
    let c = text_digits_inner::place_decimal(buf, b, y);
    text_digits_inner::place_text(buf, c, b"\n")
}

// The line of numbers that passed 1, 2 and 12: the necklaces and the Lyndon words.
fn place_numbers(buf: &mut [u8], at: usize, k: usize, n: usize) -> usize
    requires listable { Listable most_counted k n }
    requires line_room_in_bounds { at + line_room ≤ length buf.old }
    ensures { Placed buf.old at (counts_line (how_many necklace n k) (how_many lyndon n k)) result buf.new }
{
    let x = how_many_sums_inner::necklaces_of(k, n);
    let y = how_many_sums_inner::lyndon_of(k, n);
    place_counts(buf, at, x, y)
}

// The line of a refusal, as in the listing program.
fn place_refusal(buf: &mut [u8], at: usize, r: Refusal) -> usize
    requires { at + length (refused_line (number_of r)) ≤ length buf.old }
    ensures { Placed buf.old at (refused_line (number_of r)) result buf.new }
{
    let number = refusal::number(r);
    text_lines_inner::place_refused(buf, at, number)
}

// What a line prints, its newline left out or not.
pub fn place_answer(line: &[u8], buf: &mut [u8], at: usize) -> usize
    requires { at + line_room ≤ length buf.old }
    ensures { Puts (Answers line.now) line_room buf.old at result buf.new }
{
    match plan::plan_line(line, MOST) {
        Err(r) => place_refusal(buf, at, r),
        Ok((k, n)) => place_numbers(buf, at, k, n),
    }
}
