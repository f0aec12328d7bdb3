//! Checks a TOML file of settings: `confcheck FILE [FILE]`. The second file may not repeat a
//! setting.

mod settings;

use crate::confcheck::settings::{is_known, key_in, line_of, nearest_key, port_of, set_twice};
use crate::reading::text_of;
use miette::prelude::{
    Applicability, Edit, Fix, Host, IntoDiagnostic, LabeledSpan, MietteDiagnostic, OwnedSource,
    Report, Result, Severity, SourceSpan, WrapErr, print_report,
};
use miette_tree::miette;
use std::alloc::{AllocError, Global};
use std::env::Args;
use std::fs::Files;
use std::io::Print;
use std::process::ExitCode;
use toml::Table;
use toml::de::Error;

/// Runs the example with its arguments.
pub fn main<R: Host>(rt: &R, words: Args) -> ExitCode {
    match run(rt, words) {
        Ok(()) => ExitCode::SUCCESS,
        Err(report) => print_report(rt, &report),
    }
}

fn run<R: Files + Print + AllocGlobal>(rt: &R, mut words: Args) -> Result<()> {
    let alloc = rt.alloc();
    let usage = "usage: confcheck FILE [FILE]";
    let name = words.next().wrap_err(alloc, usage)?;
    let text = text_of(rt, name.as_str())?;
    match check_with(rt, text.as_str(), words.next()) {
        Ok(port) => println!(rt; "{name}: port {port}").into_diagnostic(alloc),
        Err(report) => fail_in(alloc, report, name.as_str(), text),
    }
}

/// Fails with the report over this file.
fn fail_in(alloc: Global, report: Report, name: &str, text: String) -> Result<()> {
    let source = OwnedSource::named(alloc, name, Some("toml"), text.into_bytes())?;
    Err(report.with_owned_source(source))
}

/// Returns the port, or a report of what is wrong with the settings.
fn check_with<R: Files + AllocGlobal>(rt: &R, text: &str, other: Option<String>) -> Result<i64> {
    let alloc = rt.alloc();
    if let Some(name) = other {
        let other = text_of(rt, name.as_str())?;
        check_other(alloc, text, name.as_str(), other)?;
    }
    check(alloc, text)
}

/// Fails if the other file repeats a setting.
fn check_other(alloc: Global, text: &str, name: &str, other: String) -> Result<()> {
    match set_twice(text, other.as_str()) {
        Some((key, line, again)) => {
            let source = OwnedSource::named(alloc, name, Some("toml"), other.into_bytes())?;
            let labels = label_at(alloc, Some(again), "and here")?;
            let report = miette!(in alloc; label = (line, "given here"), "two files give `{key}`");
            Err(report.with_owned_snippets(alloc, source, labels)?)
        }
        None => Ok(()),
    }
}

/// Returns the port, or a report of what is wrong with the settings.
fn check(alloc: Global, text: &str) -> Result<i64> {
    match toml::table_from_str(alloc, text) {
        Ok(table) => match port_of(&table) {
            Some(port) => Ok(port),
            None => Err(bad_port(alloc, text, &table)?),
        },
        Err(error) => Err(no_toml(alloc, &error)?),
    }
}

/// Returns a report with a label where the parser stopped.
fn no_toml(alloc: Global, error: &Error) -> Result<Report, AllocError> {
    let labels = label_at(alloc, error.span(), error.message())?;
    let diagnostic = MietteDiagnostic::new(alloc, "this is no TOML")?.with_labels(labels);
    Ok(Report::new(diagnostic))
}

/// Returns the report of a bad port, with a warning for each unused key.
fn bad_port(alloc: Global, text: &str, table: &Table) -> Result<Report, AllocError> {
    let labels = label_at(alloc, line_of(text, "port"), "from 1 to 65535")?;
    let fault = miette!(
        in alloc;
        code = "settings::port",
        help = "write a number, as in `port = 8080`",
        url = "https://toml.io/en/v1.0.0#integer",
        labels = labels,
        "the port is missing or wrong"
    );
    let warnings = unread_keys(alloc, text, table)?;
    fault
        .with_related(warnings)
        .with_fix(alloc, port_fix(alloc, text)?)
}

/// Returns a warning for each unused key.
fn unread_keys(alloc: Global, text: &str, table: &Table) -> Result<Vec<Report>, AllocError> {
    let mut warnings = Vec::new(alloc);
    for key in table.keys() {
        if !is_known(key.as_str()) {
            warnings.push(unread_key(alloc, text, key.as_str())?)?;
        }
    }
    Ok(warnings)
}

/// Returns the warning for an unused key.
fn unread_key(alloc: Global, text: &str, key: &str) -> Result<Report, AllocError> {
    let labels = label_at(alloc, line_of(text, key), "this key isn't known")?;
    let warning = miette!(
        in alloc;
        severity = Severity::Warning,
        labels = labels,
        "nothing reads `{key}`"
    );
    match key_fix(alloc, text, key)? {
        Some(fix) => warning.with_fix(alloc, fix),
        None => Ok(warning),
    }
}

/// Returns a fix that sets a valid port: it replaces the line of the port, or inserts one.
fn port_fix(alloc: Global, text: &str) -> Result<Fix, AllocError> {
    let edit = match line_of(text, "port") {
        Some(line) => Edit::replace(line, String::from_str(alloc, "port = 8080")?),
        None => Edit::insert(0, String::from_str(alloc, "port = 8080\n")?),
    };
    let fix = Fix::new(alloc, "set a port")?.with_edit(edit)?;
    Ok(fix.with_applicability(Applicability::HasPlaceholders))
}

/// Returns a fix that replaces a key by the most similar known one, if there is one.
fn key_fix(alloc: Global, text: &str, key: &str) -> Result<Option<Fix>, AllocError> {
    let (Some(known), Some(place)) = (nearest_key(alloc, key)?, key_in(text, key)) else {
        return Ok(None);
    };
    let edit = Edit::replace(place, String::from_str(alloc, known)?);
    let fix = Fix::new(alloc, "a known key has a similar name")?.with_edit(edit)?;
    Ok(Some(fix.with_applicability(Applicability::MaybeIncorrect)))
}

/// Returns a list with a label at the given span, if there is one.
fn label_at<P: Into<SourceSpan> + Drop>(
    alloc: Global,
    place: Option<P>,
    why: &str,
) -> Result<Vec<LabeledSpan>, AllocError> {
    let mut labels = Vec::new(alloc);
    if let Some(place) = place {
        labels.push(LabeledSpan::at(alloc, place, why)?)?;
    }
    Ok(labels)
}
