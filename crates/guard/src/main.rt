// The command for guarded sets.

#![tactic(auto)]

use set_program_inner::Rule;

fn main(rt: HostRuntime) {
    set_program_inner::run(rt, Rule::Guarded);
}
