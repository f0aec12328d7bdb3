//! A program that prints its error.

ghost use Rattle.std.specs.Prelude.{◌≡◌};
ghost use Rattle.std.specs.Process.{exit_status};

use miette::options::MietteHandlerOpts;
use miette::print::eprint_report_with;
use miette::report::Report;
use miette::terminal::Streams;
use std::env::Env;
use std::process::ExitCode;

/// Prints the report to standard error with two context lines. The exit code is 1.
pub fn fail<R: Env + AllocGlobal + Streams>(rt: &R, report: &Report) -> ExitCode
    ensures { exit_status result ≡ 1 }
{
    let options = MietteHandlerOpts::new().context_lines(2);
    eprint_report_with(rt, options, report)
}
