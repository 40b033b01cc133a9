// The command for a sheet.

#![tactic(auto)]

fn main(rt: HostRuntime) {
    sheet_program_inner::run(rt);
}
