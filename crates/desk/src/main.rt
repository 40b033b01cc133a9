// The desk: for each line of standard input one line on standard output, as soon as it is there.

#![tactic(auto)]

use stream_kind_inner::Kind;

fn main(rt: HostRuntime) {
    stream_program_inner::run(rt, Kind::Desk);
}
