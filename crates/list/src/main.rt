// The listing program (01, 'The listing program').

#![tactic(auto)]

fn main(rt: HostRuntime) {
    listing_program_inner::run(rt);
}
