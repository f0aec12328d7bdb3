//! Renders the report of a description many times, and prints the length of its text.
#![tactic(auto)]

use miette_report::bench::bench_with;
use miette_report::fault::Program;
use miette_report::words::program_arguments;
use std::process::ExitCode;

fn main(rt: HostRuntime) -> ExitCode {
    ExitCode::from(match program_arguments(&rt) {
        Ok(words) => bench_with(rt.alloc(), &words, rt.stdin(), rt.stdout(), rt.stderr()),
        Err(fault) => Program::Bench.end(fault, rt.stderr()),
    })
}
