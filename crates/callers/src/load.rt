//! Reading a file, with context for its errors.

use miette_protocol::protocol::Severity;
use miette_tree::miette;
use miette_tree::report::{IntoDiagnostic, Report, Result, WrapErr};
use std::alloc::{Alloc, Global};
use std::fs;
use std::fs::Files;

/// Reads a file.
fn settings_bytes<R: Files + Alloc<A = Global>>(rt: &R, path: &str) -> Result<Vec<u8>> {
    let alloc = rt.alloc();
    fs::read(rt, path)
        .into_diagnostic(alloc)
        .wrap_err_with(alloc, || format!(in alloc; "could not read {path}"))
}

/// Returns the size of a settings file, or 0 without one.
pub fn settings_len<R: Files + Alloc<A = Global>>(rt: &R, path: &str) -> Result<usize> {
    let alloc = rt.alloc();
    let bytes = settings_bytes(rt, path).wrap_err(alloc, "the settings could not be loaded")?;
    Ok(bytes.len())
}

/// The same, with a hint beside the error.
pub fn settings_len_or_hint<R: Files + Alloc<A = Global>>(rt: &R, path: &str) -> Result<usize> {
    match settings_len(rt, path) {
        Ok(len) => Ok(len),
        Err(report) => Err(beside_a_hint(rt.alloc(), path, report)),
    }
}

/// Adds a related report with a hint, if it can be allocated.
fn beside_a_hint(alloc: Global, path: &str, report: Report) -> Report {
    let hint =
        miette!(in alloc; severity = Severity::Advice, "without {path} the default settings hold");
    let mut related = Vec::new(alloc);
    match related.push(hint) {
        Ok(()) => report.with_related(related),
        Err(_) => report,
    }
}
