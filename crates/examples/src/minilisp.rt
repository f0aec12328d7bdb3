//! Checks files of a small Lisp: `minilisp [--FORM] FILE..`, where `-` is standard input. The
//! exit code is 1 if a file has an error, 2 if the arguments are wrong, and 0 otherwise.

mod syntax;
mod words;

use crate::minilisp::syntax::{Slip, slips_of};
use crate::minilisp::words::{Words, words_of};
use miette::prelude::*;
use std::alloc::Global;
use std::env::Args;
use std::fs::Files;
use std::io::Input;
use std::process::ExitCode;

/// Runs the example with its arguments.
pub fn main<R: Host>(rt: &R, words: Args) -> ExitCode {
    let done = match words_of(rt.alloc(), words) {
        Ok(words) => check_all(rt, &words),
        Err(report) => return fail_with(rt, 2, &report),
    };
    match done {
        Ok(status) => status,
        Err(report) => eprint_report(rt, &report),
    }
}

/// Reports the errors of each file, then a summary.
fn check_all<R: Host>(rt: &R, words: &Words) -> Result<ExitCode> {
    let faults = faults_in(rt, &words.names)?;
    let options = MietteHandlerOpts::new().end_labels(true);
    let run = Reporter::new(rt, words.form, options)?.with_summary();
    Ok(run.report_all(faults.as_slice()))
}

/// Returns the reports of all files. A file that can't be read has a report too.
fn faults_in<R: Files + Input + AllocGlobal>(rt: &R, names: &[String]) -> Result<Vec<Report>> {
    let mut faults = Vec::new(rt.alloc());
    for name in names {
        match SourceText::read(rt, name.as_str(), Some("lisp")) {
            Ok(file) => push_slips(&mut faults, rt.alloc(), &file)?,
            Err(report) => faults.push(report)?,
        }
    }
    Ok(faults)
}

/// Appends a report of each error in a file.
fn push_slips(faults: &mut Vec<Report>, alloc: Global, file: &SourceText) -> Result<()> {
    let text = file.text();
    for slip in slips_of(alloc, text)?.iter() {
        let source = file.source()?;
        let report = report_of(alloc, *slip, text.len());
        faults.push(report.with_owned_source(source))?;
    }
    Ok(())
}

/// Returns the report of an error in a text of this length.
fn report_of(alloc: Global, slip: Slip, end: usize) -> Report {
    match slip {
        Slip::Unclosed(at) => unclosed(alloc, at, end, "`(`", "a `)` is missing here"),
        Slip::UnclosedText(at) => unclosed(alloc, at, end, "text", "a `\"` is missing here"),
        Slip::Stray(at) => {
            let label = ((at, 1), "nothing is open here");
            miette!(in alloc; code = "minilisp::stray", label = label, "stray `)`")
        }
        Slip::Empty(at) => {
            let label = ((at, 2), "nothing stands here");
            let warning = Severity::Warning;
            miette!(in alloc; severity = warning, label = label, "this list has no parts")
        }
    }
}

/// Returns the report of something that is never closed, with labels at its start and at the end
/// of the text.
fn unclosed(alloc: Global, at: usize, end: usize, what: &str, missing: &str) -> Report {
    let start = ((at, 1), "this is never closed");
    let end = (end, missing);
    miette!(in alloc; code = "minilisp::unclosed", label = start, label = end, "unclosed {what}")
}
