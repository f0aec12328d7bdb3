//! Printing to a writer that is full. The program `calls` prints to one that isn't, and with
//! failing allocations.

use crate::comparing::same;
use crate::renderings::over_ab;
use miette::highlight::BlankHighlighter;
use miette::options::MietteHandlerOpts;
use miette::print::{Outputs, print_with_outputs};
use miette::report::Report;
use miette::terminal::Stream;
use std::io;
use std::io::{ErrorKind, Write};
use std::process::ExitCode;

/// A writer that takes nothing.
#[derive(Drop)]
struct Full;

impl Write for Full {
    fn write(&mut self, _buf: &[u8]) -> io::Result<usize> {
        Err(io::Error::from(ErrorKind::Other))
    }

    fn flush(&mut self) -> io::Result<()> {
        Ok(())
    }
}

/// Returns whether narrating the report fails, and standard error says why.
fn is_told(rt: &HostRuntime, report: &Report, outputs: &mut Outputs<Full, Vec<u8>>) -> bool {
    let options: MietteHandlerOpts<BlankHighlighter> = MietteHandlerOpts::default();
    let options = options.force_narrated(true);
    match print_with_outputs(rt, Stream::Stdout, options, report, outputs) {
        Ok(code) => code == ExitCode::FAILURE,
        Err(_) => false,
    }
}

/// The error line for a message, and for a label past the end of its source.
const TOLD: &str =
    "a report could not be printed: write fault\na report could not be printed: a source could not be read\n";

#[test]
fn faults_are_told(rt: HostRuntime) {
    let alloc = rt.alloc();
    let mut outputs = Outputs::new(Full, Vec::new(alloc));
    let report = Report::msg(alloc, "m").expect(&rt, "memory");
    let refused = over_ab(alloc, 7).expect(&rt, "memory");
    let ends = (
        is_told(&rt, &report, &mut outputs),
        is_told(&rt, &refused, &mut outputs),
    );
    let told = str::from_utf8(outputs.faults.as_slice()).unwrap_or("no text");
    same(&rt, (ends, told), ((true, true), TOLD));
}
