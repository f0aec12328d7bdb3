//! Compares two logs of tests line by line: `testdiff [--json] EXPECTED ACTUAL`.

mod lines;

use crate::reading::text_of;
use crate::testdiff::lines::differences;
use miette::prelude::*;
use std::alloc::Global;
use std::env::Args;
use std::fs::Files;
use std::io::Print;
use std::process::ExitCode;

/// Runs the example with its arguments.
pub fn main<R: Host>(rt: &R, words: Args) -> ExitCode {
    match run(rt, words) {
        Ok(status) => status,
        Err(report) => eprint_report(rt, &report),
    }
}

fn run<R: Host>(rt: &R, words: Args) -> Result<ExitCode> {
    let (form, faults) = compare(rt, words)?;
    let run = Reporter::new(rt, form, MietteHandlerOpts::new())?;
    Ok(run.report_all(faults.as_slice()))
}

/// Returns the form of the reports, and a report of the lines that differ. Prints a line if none
/// does.
fn compare<R: Files + Print + AllocGlobal>(rt: &R, words: Args) -> Result<(Form, Vec<Report>)> {
    let alloc = rt.alloc();
    let usage = "usage: testdiff [--json] EXPECTED ACTUAL";
    let (form, expected, actual) = words_of(words);
    let expected = expected.wrap_err(alloc, usage)?;
    let actual = actual.wrap_err(alloc, usage)?;
    let wanted = text_of(rt, expected.as_str())?;
    let found = text_of(rt, actual.as_str())?;
    let faults = faults_in(alloc, wanted.as_str(), actual.as_str(), found)?;
    if faults.is_empty() {
        println!(rt; "{actual}: as expected").into_diagnostic(alloc)?;
    }
    Ok((form, faults))
}

/// Returns the form of the reports, and the names of both logs.
fn words_of(mut words: Args) -> (Form, Option<String>, Option<String>) {
    let first = words.next();
    if first.as_deref() == Some("--json") {
        (Form::JsonRows, words.next(), words.next())
    } else {
        (Form::Pictures, first, words.next())
    }
}

/// Returns a report with a label on each line that differs, if there are any.
fn faults_in(alloc: Global, wanted: &str, actual: &str, found: String) -> Result<Vec<Report>> {
    let labels = differences(alloc, wanted, found.as_str())?;
    let count = labels.len();
    if count == 0 {
        return Ok(Vec::new(alloc));
    }
    let source = OwnedSource::named(alloc, actual, None, found.into_bytes())?;
    let report = miette!(
        in alloc;
        help = "the expected log has other lines there",
        labels = labels,
        "lines that differ: {count}"
    );
    let mut faults = Vec::new(alloc);
    faults.push(report.with_owned_source(source))?;
    Ok(faults)
}
