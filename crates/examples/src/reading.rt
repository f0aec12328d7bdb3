//! Reading files.

use miette::prelude::{IntoDiagnostic, Result, WrapErr};
use std::fs;
use std::fs::Files;

/// Reads a file.
///
/// # Errors
/// A report if the file can't be read or isn't UTF-8.
pub fn text_of<R: Files + AllocGlobal>(rt: &R, name: &str) -> Result<String> {
    let alloc = rt.alloc();
    fs::read_to_string(rt, name)
        .into_diagnostic(alloc)
        .wrap_err_with(alloc, || format!(in alloc; "could not read {name}"))
}
