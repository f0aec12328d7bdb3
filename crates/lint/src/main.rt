//! Checks the lines of a source from standard input. Prints its findings as a report, a diff or a SARIF log, prints the
//! fixed source, or serves an editor.
#![tactic(auto)]

use miette_lint_program::fault::Program;
use miette_lint_program::lint::lint_with;
use miette_lint_program::words::program_arguments;
use std::process::ExitCode;

fn main(rt: HostRuntime) -> ExitCode {
    ExitCode::from(match program_arguments(&rt) {
        Ok(words) => lint_with(rt.alloc(), &words, rt.stdin(), rt.stdout(), rt.stderr()),
        Err(fault) => Program::Lint.end(fault, rt.stderr()),
    })
}
