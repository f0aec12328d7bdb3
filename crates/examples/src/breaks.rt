//! Prints where lines may end. `breaks FILE` prints one line for each NUL-terminated text of a
//! file: the offsets of its break opportunities, in bytes, with `!` after mandatory ones. Errors
//! are printed without a report.

use miette_line_breaks::breaks::{BreakOpportunity, line_breaks};
use std::alloc::{AllocError, Global};
use std::env::Args;
use std::fs::Files;
use std::io::{Eprint, Print};
use std::process::ExitCode;
use std::{fs, io};

/// Runs the example with its arguments.
pub fn main<R: Files + Print + Eprint + AllocGlobal>(rt: &R, words: Args) -> ExitCode {
    match run(rt, words) {
        Ok(()) => ExitCode::SUCCESS,
        Err(fault) => {
            let _ = eprintln!(rt; "breaks: {fault}");
            ExitCode::FAILURE
        }
    }
}

fn run<R: Files + Print + AllocGlobal>(rt: &R, words: Args) -> io::Result<()> {
    let text = text_of(rt, words)?;
    let rows = rows_of(rt.alloc(), text.as_str())?;
    rt.print(rows)
}

/// Reads the file that the first argument names.
fn text_of<R: Files + AllocGlobal>(rt: &R, mut words: Args) -> io::Result<String> {
    match words.next() {
        Some(name) => fs::read_to_string(rt, name.as_str()),
        None => Err(io::Error::other("usage: breaks FILE")),
    }
}

/// Returns one line for each NUL-terminated text.
fn rows_of(alloc: Global, text: &str) -> Result<String, AllocError> {
    let mut rows = String::new(alloc);
    for part in text.split('\0') {
        push_places(&mut rows, part)?;
        rows.push('\n')?;
    }
    Ok(rows)
}

/// Appends the break opportunities of a text, each after a space.
fn push_places(rows: &mut String, text: &str) -> Result<(), AllocError> {
    for (at, opportunity) in line_breaks(text) {
        let mark = match opportunity {
            BreakOpportunity::Mandatory => "!",
            BreakOpportunity::Allowed => "",
        };
        write!(rows, " {at}{mark}")?;
    }
    Ok(())
}
