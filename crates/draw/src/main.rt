//! Draws one label on a source from standard input.
#![tactic(auto)]

use miette_devices::fault::Program;
use miette_devices::words::program_arguments;
use miette_draw::draw::draw_with;
use std::process::ExitCode;

fn main(rt: HostRuntime) -> ExitCode {
    ExitCode::from(match program_arguments(&rt) {
        Ok(words) => draw_with(rt.alloc(), &words, rt.stdin(), rt.stdout(), rt.stderr()),
        Err(fault) => Program::Draw.end(fault, rt.stderr()),
    })
}
