// The report program (02, request f).

#![tactic(auto)]

use stream_kind_inner::Kind;

fn main(rt: HostRuntime) {
    stream_program_inner::run(rt, Kind::Count);
}
