// The converting program (02, j): `./rings convert < old > new`.

#![tactic(auto)]

fn main(rt: HostRuntime) {
    converter_program_inner::run(rt);
}
