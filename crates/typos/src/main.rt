//! Finds common misspellings. `typos FILE` prints them as labels, `typos --fix FILE` prints the
//! corrected file.
#![tactic(auto)]

use miette::prelude::*;
use std::alloc::{AllocError, Global};
use std::env::{Args, Env};
use std::fs::Files;
use std::io::Print;
use std::process::ExitCode;
use std::{env, fs};

/// Common misspellings with their corrections.
const WORDS: [(&str, &str); 4] = [
    ("lenght", "length"),
    ("occured", "occurred"),
    ("recieve", "receive"),
    ("seperate", "separate"),
];

fn main(rt: HostRuntime) -> ExitCode {
    match run(&rt) {
        Ok(()) => ExitCode::SUCCESS,
        Err(report) => print_report(&rt, &report),
    }
}

/// Prints the corrected file, or fails with a report of its misspellings.
fn run<R: Env + Files + Print + AllocGlobal>(rt: &R) -> Result<()> {
    let alloc = rt.alloc();
    let (is_fixing, name) = words_of(env::args(rt).into_diagnostic(alloc)?);
    let name = name.wrap_err(alloc, "usage: typos [--fix] FILE")?;
    let text = text_of(rt, name.as_str())?;
    if !is_fixing {
        return check(alloc, name.as_str(), text);
    }
    let fixed = mended(alloc, text.as_str())?;
    rt.write_all(fixed.as_slice()).into_diagnostic(alloc)
}

/// Returns whether to correct the file, and its name.
fn words_of(mut words: Args) -> (bool, Option<String>) {
    let first = words.nth(1);
    if first.as_deref() == Some("--fix") {
        (true, words.next())
    } else {
        (false, first)
    }
}

/// Reads a file.
fn text_of<R: Files + AllocGlobal>(rt: &R, name: &str) -> Result<String> {
    let alloc = rt.alloc();
    fs::read_to_string(rt, name)
        .into_diagnostic(alloc)
        .wrap_err_with(alloc, || format!(in alloc; "could not read {name}"))
}

/// Returns the corrected text.
fn mended(alloc: Global, text: &str) -> Result<Vec<u8>> {
    let fix = fix_of(alloc, text)?;
    fix.apply(alloc, text.as_bytes()).into_diagnostic(alloc)
}

/// Fails with a report of the misspellings of a file, if there are any.
fn check(alloc: Global, name: &str, text: String) -> Result<()> {
    let fix = fix_of(alloc, text.as_str())?;
    if fix.edits().is_empty() {
        return Ok(());
    }
    let source = OwnedSource::named(alloc, name, None, text.into_bytes())?;
    Err(report_of(alloc, fix)?.with_owned_source(source))
}

/// Returns a fix with an edit for each misspelling.
fn fix_of(alloc: Global, text: &str) -> Result<Fix, AllocError> {
    let mut fix = Fix::new(alloc, "spell it right")?;
    for (wrong, right) in &WORDS {
        for (offset, word) in text.match_indices(*wrong) {
            let edit = Edit::replace((offset, word.len()), String::from_str(alloc, right)?);
            fix = fix.with_edit(edit)?;
        }
    }
    Ok(fix)
}

/// Returns a label for each edit of a fix.
fn labels_of(alloc: Global, fix: &Fix) -> Result<Vec<LabeledSpan>, AllocError> {
    let mut labels = Vec::new(alloc);
    for edit in fix.edits() {
        let why = format!(in alloc; "should be `{}`", edit.text())?;
        labels.push(LabeledSpan::new_with_span(Some(why), *edit.span()))?;
    }
    Ok(labels)
}

/// Returns a report with a label on each misspelling, and the fix.
fn report_of(alloc: Global, fix: Fix) -> Result<Report, AllocError> {
    let labels = labels_of(alloc, &fix)?;
    let count = labels.len();
    miette!(in alloc; labels = labels, "misspelt words: {count}").with_fix(alloc, fix)
}
