// The program that writes front records from lines, a ring each: `./rings write < lines > catalogue`. It is run here with lines of many lengths and shades, which take several
// blocks, and a last one without newline.

#![tactic(auto)]

fn main(rt: HostRuntime) {
    files_write_program_inner::run(rt, record_spec::Kind::Front);
}
