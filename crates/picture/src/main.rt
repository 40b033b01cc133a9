// The command for one target.

#![tactic(auto)]

fn main(rt: HostRuntime) {
    picture_program_inner::run(rt);
}
