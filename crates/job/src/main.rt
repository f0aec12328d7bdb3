//! Reads the description of a report from standard input, and prints the report, its SARIF log,
//! what editors take of it, or its source after fixes.
#![tactic(auto)]

use miette_report::fault::Program;
use miette_report::job::run_program;
use miette_report::words::program_arguments;
use std::process::ExitCode;

fn main(rt: HostRuntime) -> ExitCode {
    ExitCode::from(match program_arguments(&rt) {
        Ok(words) => run_program(rt.alloc(), &words, rt.stdin(), rt.stdout(), rt.stderr()),
        Err(fault) => Program::Job.end(fault, rt.stderr()),
    })
}
