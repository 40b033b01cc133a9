// A chart job's command (02, g).

#![tactic(auto)]

use set_program_inner::Rule;

fn main(rt: HostRuntime) {
    set_program_inner::run(rt, Rule::Plain);
}
