//! The program `richd`.
#![tactic(auto)]

use server::{Patient, PatientInput};
use std::process::ExitCode;

fn main(rt: HostRuntime) -> ExitCode {
    let mut input = PatientInput::new(&rt, rt.stdin());
    let mut output = rt.stdout();
    let mut errors = Patient::new(&rt, rt.stderr());
    ExitCode::from(server::run_with_args(&rt, &mut input, &mut output, &mut errors))
}
