//! The program's arguments.

use miette::prelude::*;
use std::alloc::Global;
use std::env::Args;
use thiserror::Error;

/// The program's arguments.
#[derive(Drop)]
pub struct Words {
    /// The form of the reports.
    pub form: Form,
    /// The names of the files.
    pub names: Vec<String>,
}

/// Why the arguments are wrong.
#[derive(Clone, Copy, Debug, Error)]
pub enum Reason {
    /// The form isn't known.
    #[error("there is no such form")]
    NoForm,
    /// No file is named.
    #[error("usage: minilisp [--brief | --narrated | --json | --json-rows] FILE..")]
    NoFile,
}

/// The reason, and the allocator for its report.
#[derive(Drop)]
pub struct Bad(pub Global, pub Reason);

impl From<Bad> for Report {
    fn from(bad: Bad) -> Report {
        match Report::from_err(bad.0, bad.1) {
            Ok(report) => report,
            Err(refused) => Report::from(refused),
        }
    }
}

/// Parses the program's arguments.
///
/// # Errors
/// A report if the arguments are wrong.
pub fn words_of(alloc: Global, words: Args) -> Result<Words> {
    let mut form = Form::Pictures;
    let mut names = Vec::new(alloc);
    for word in words {
        match word.as_str().strip_prefix("--") {
            Some(name) => form = Form::named(name).ok_or(Bad(alloc, Reason::NoForm))?,
            None => names.push(word)?,
        }
    }
    if names.is_empty() {
        return Err(Report::from(Bad(alloc, Reason::NoFile)));
    }
    Ok(Words { form, names })
}
