// The program that writes packed records from lines, a ring each: `./rings pack < lines > catalogue`. It is run here with the lines of `write_records`.

#![tactic(auto)]

fn main(rt: HostRuntime) {
    files_write_program_inner::run(rt, record_spec::Kind::Packed);
}
