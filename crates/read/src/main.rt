// The program that tells a catalogue's records, a line each: `./rings read < catalogue`. It is run here with a catalogue of both forms, which takes several blocks.

#![tactic(auto)]

use files_spec::Job;

fn main(rt: HostRuntime) {
    files_program_inner::run(rt, Job::Read);
}
