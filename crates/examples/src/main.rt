//! Five examples in one program. The first argument names one: `examples confcheck
//! settings.toml`. Each example takes the arguments after its name, and could be its own program.
#![tactic(auto)]

mod breaks;
mod calc;
mod confcheck;
mod minilisp;
mod reading;
mod testdiff;

use std::io::Eprint;
use std::process::ExitCode;
use std::{env, io};

fn main(rt: HostRuntime) -> ExitCode {
    let mut words = match env::args(&rt) {
        Ok(words) => words,
        Err(fault) => return fail(&rt, fault),
    };
    let name = words.nth(1).unwrap_or(String::new(rt.alloc()));
    match name.as_str() {
        "breaks" => breaks::main(&rt, words),
        "calc" => calc::main(&rt, words),
        "confcheck" => confcheck::main(&rt, words),
        "minilisp" => minilisp::main(&rt, words),
        "testdiff" => testdiff::main(&rt, words),
        _ => fail(
            &rt,
            io::Error::other("usage: examples breaks|calc|confcheck|minilisp|testdiff WORDS.."),
        ),
    }
}

/// Prints why the arguments are wrong, and returns exit code 2.
fn fail<R: Eprint>(rt: &R, fault: io::Error) -> ExitCode {
    let _ = eprintln!(rt; "{fault}");
    ExitCode::from(2)
}
