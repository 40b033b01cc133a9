// The program that moves a catalogue's records to the other form: `./rings move < catalogue > moved`. It is run here with a catalogue of both forms, which takes several
// blocks.

#![tactic(auto)]

use files_spec::Job;

fn main(rt: HostRuntime) {
    files_program_inner::run(rt, Job::Move);
}
