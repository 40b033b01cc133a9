// What a line asks for (01, 'The listing program'): k and n, or a refusal. The greatest power that is not Too many is a parameter.

#![tactic(auto)]

ghost use Rattle.plan_spec.specs.Plan.{PlanSays};

use refusal::Refusal;

// A line: 11, 1, 2, 12.
pub fn plan_line(line: &[u8], limit: usize) -> Result<(usize, usize), Refusal>
    ensures { PlanSays limit line.now result }
{
    let (k, n) = line::parse_line(line).ok_or(Refusal::Line)?;
    limits::plan_numbers(k, n, limit)
}
