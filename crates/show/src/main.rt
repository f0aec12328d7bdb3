//! Reads the messages of compilers and linters from standard input. Prints them as graphical
//! reports, or applies rustc's machine-applicable fixes.
#![tactic(auto)]

use miette_devices::words::program_arguments;
use miette_show::request::run_program;
use miette_show::show::{ShowStreams, refuse_words};
use std::process::ExitCode;

fn main(rt: HostRuntime) -> ExitCode {
    ExitCode::from(match program_arguments(&rt) {
        Ok(words) => {
            let streams = ShowStreams::new(rt.alloc(), rt.stdin(), rt.stdout(), rt.stderr());
            run_program(&rt, &words, streams)
        }
        Err(fault) => refuse_words(fault, rt.stderr()),
    })
}
