//! Makes each public call that allocates, and prints its result.
//!
//! - `calls` makes all calls, `calls NAME` one of them.
//! - `calls report`, `calls report NAME` and `calls report NAME HANDLER` print example reports by each handler.
//! - `calls stops` prints reports over sources that fail.
//!
//! A row has the call's name, its arguments and its result, separated by tabs. If allocation fails, the result is
//! `refused`, followed by what the call gives back, or by the text that it appends to.
#![tactic(auto)]

mod attached;
mod diagnostics;
mod examples;
mod fixes;
mod fixtures;
mod handlers;
mod highlighters;
mod labels;
mod names;
mod outputs;
mod printing;
mod reports;
mod rows;
mod runs;
mod sources;
mod stopping;
mod stops;
mod texts;
mod themes;
mod worked;

use crate::names::{Call, TABLES, table};
use crate::rows::{CallResult, ExitReason, RowResult, Rows};
use std::env;
use std::io::Write;
use std::process::ExitCode;
use std::rt::Stderr;

fn main(rt: HostRuntime) -> ExitCode {
    match run(&rt) {
        Ok(()) => ExitCode::SUCCESS,
        Err(stop) => end(stop, rt.stderr()),
    }
}

fn end(stop: ExitReason, mut faults: Stderr) -> ExitCode {
    let (status, why) = match stop {
        ExitReason::Memory => (1, "calls: out of memory\n"),
        ExitReason::Write => (1, "calls: write fault\n"),
        ExitReason::Usage => (2, "usage: calls [NAME | report [NAME [HANDLER]] | stops]\n"),
    };
    let _ = faults.write_all(why.as_bytes());
    ExitCode::from(status)
}

fn run(rt: &HostRuntime) -> RowResult {
    let words: Vec<String> = match env::args(rt) {
        Ok(words) => words.skip(1).collect(rt.alloc())?,
        Err(_) => return Err(ExitReason::Memory),
    };
    match words.as_slice() {
        [] => rows_of(rt, None),
        [name] => rows_of_word(rt, name.as_str()),
        [kind, name] => worked_rows(rt, kind.as_str(), name.as_str(), ""),
        [kind, name, handler] => worked_rows(rt, kind.as_str(), name.as_str(), handler.as_str()),
        _ => Err(ExitReason::Usage),
    }
}

fn rows_of_word(rt: &HostRuntime, name: &str) -> RowResult {
    match name {
        "report" => worked_rows(rt, name, "", ""),
        "stops" => stops::rows(rt.alloc(), &mut Rows::on(rt.stdout())),
        _ => rows_of(rt, Some(name)),
    }
}

/// Prints the rows of example reports.
fn worked_rows(rt: &HostRuntime, kind: &str, name: &str, handler: &str) -> RowResult {
    if kind != "report" {
        return Err(ExitReason::Usage);
    }
    examples::rows_of(rt.alloc(), &mut Rows::on(rt.stdout()), name, handler)
}

/// Prints the rows of all calls, or the row of one.
fn rows_of(rt: &HostRuntime, wanted: Option<&str>) -> RowResult {
    let mut found = false;
    for number in 0..TABLES {
        for (name, call) in table(number) {
            if wanted.unwrap_or(name) == *name {
                found = true;
                row(rt, name, *call)?;
            }
        }
    }
    if found {
        Ok(())
    } else {
        Err(ExitReason::Usage)
    }
}

/// Prints the row of a call.
fn row(rt: &HostRuntime, name: &str, call: Call) -> RowResult {
    let mut row = Rows::on(rt.stdout());
    row.text(name);
    let called = make(rt, name, call, &mut row);
    row.end(called)
}

fn make(rt: &HostRuntime, name: &str, call: Call, row: &mut Rows) -> CallResult {
    let alloc = rt.alloc();
    match call {
        Call::Label(call) => labels::make(alloc, call, row),
        Call::Diagnostic(call) => diagnostics::make(alloc, call, row),
        Call::Source(call) => sources::make(alloc, call, row),
        Call::Theme(call) => themes::make(alloc, call, row),
        Call::Highlighter(call) => highlighters::make(alloc, call, row),
        Call::Report(call) => reports::make(alloc, call, row),
        Call::Part(call) => attached::make(alloc, call, row),
        Call::Text(call) => texts::make(alloc, call, row),
        Call::Runs(call) => runs::make(alloc, call, row),
        Call::Output(call) => outputs::make(alloc, call, row),
        Call::Handler(call) => handlers::make(alloc, call, row),
        Call::Fix(call) => fixes::make(alloc, call, row),
        Call::Printing(call) => printing::make(rt, name, call, row),
    }
}
