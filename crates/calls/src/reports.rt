//! Calls that make reports, and wrap them in contexts and causes.

use crate::diagnostics::{full_diagnostic, given_diagnostic};
use crate::fixtures::texts_of;
use crate::rows::{CallResult, REFUSED, Rows, VALUE};
use miette::error::MietteError;
use miette::protocol::Diagnostic;
use miette::report::{DefaultBoxes, IntoDiagnostic, Report, Result, WrapErr};
use miette::source::SourceCode;
use miette_tree::{bail, ensure, miette};
use std::alloc::{AllocError, Global};

/// The calls of this module.
#[derive(Clone, Copy)]
pub enum ReportCall {
    Copied,
    Msg,
    FromErr,
    WithDiagnosticCause,
    WrapErr,
    Context,
    /// A call of `WrapErr` on an `Option`, with this text.
    InFrontOfNone(WrapMethod, &'static str),
    /// The same on a `Result`.
    InFrontOfErr(WrapMethod, &'static str),
    IntoDiagnostic,
    Miette,
    Bail,
    Ensure,
}

/// A method of `WrapErr`.
#[derive(Clone, Copy)]
pub enum WrapMethod {
    WrapErr,
    Context,
    WrapErrWith,
    WithContext,
}

/// The context of a missing value.
pub const NOTHING: &str = "nothing is there";

/// The same, made lazily.
pub const NO_ITEM: &str = "item 7 is missing";

/// The context of a report.
pub const IN_FRONT: &str = "in front";

/// The same, made lazily.
pub const SEVEN: &str = "7 in front";

/// Makes a call and prints its row.
///
/// # Errors
/// If allocating the call's arguments fails.
pub fn make(alloc: Global, call: ReportCall, row: &mut Rows) -> CallResult {
    match call {
        ReportCall::Copied => {
            let full = given_diagnostic(alloc, row)?;
            let copy = Report::copied(alloc, &full);
            drop(full);
            made(row, copy);
        }
        ReportCall::Msg => made(row, Report::msg(alloc, "oops!")),
        ReportCall::FromErr => made(row, Report::from_err(alloc, MietteError::OutOfBounds)),
        ReportCall::WithDiagnosticCause => return over_another(alloc, row),
        ReportCall::Miette => row.report_or_refusal(&by_macro(alloc)),
        ReportCall::Bail => failed(row, is_refused(alloc)),
        ReportCall::Ensure => failed(row, is_held(alloc, 7)),
        ReportCall::IntoDiagnostic => {
            let error: std::result::Result<u32, MietteError> = Err(MietteError::OutOfBounds);
            failed(row, error.into_diagnostic(alloc));
        }
        ReportCall::InFrontOfNone(way, text) => {
            failed(row, in_front(alloc, way, text, None::<u32>));
        }
        _ => return in_front_of_report(alloc, call, row),
    }
    Ok(())
}

fn by_macro(alloc: Global) -> Report {
    miette!(in alloc; code = "a::b", help = "try", "7 is too much")
}

/// Wraps a report, or a failed result, in a context.
fn in_front_of_report(alloc: Global, call: ReportCall, row: &mut Rows) -> CallResult {
    let report = full_report(alloc)?;
    row.report(VALUE, &report);
    match call {
        ReportCall::InFrontOfErr(way, text) => {
            let failure: Result<u32> = Err(report);
            failed(row, in_front(alloc, way, text, failure));
        }
        ReportCall::Context => put_before(row, report.context(alloc, IN_FRONT)),
        _ => put_before(row, report.wrap_err(alloc, IN_FRONT)),
    }
    Ok(())
}

/// Wraps a missing value or a failed result in a context.
fn in_front<D: Diagnostic, S: SourceCode, T: WrapErr<u32, D, S>>(
    alloc: Global,
    way: WrapMethod,
    text: &str,
    value: T,
) -> Result<u32, Report<D, S>>
where
    Report<D, S>: DefaultBoxes,
{
    let why = || String::from_str(alloc, text);
    match way {
        WrapMethod::WrapErr => value.wrap_err(alloc, text),
        WrapMethod::Context => value.context(alloc, text),
        WrapMethod::WrapErrWith => value.wrap_err_with(alloc, why),
        WrapMethod::WithContext => value.with_context(alloc, why),
    }
}

/// Makes one report the cause of another. If allocation fails, both come back.
fn over_another(alloc: Global, row: &mut Rows) -> CallResult {
    let cause = full_report(alloc)?;
    let report = Report::new(full_diagnostic(alloc)?);
    row.report(VALUE, &report);
    row.report(VALUE, &cause);
    match report.with_diagnostic_cause(alloc, cause) {
        Ok(made) => row.report(VALUE, &made),
        Err((report, cause)) => {
            row.report(REFUSED, &report);
            row.report(VALUE, &cause);
        }
    }
    Ok(())
}

/// Returns the report `oops!` with all parts, over two texts.
///
/// # Errors
/// If allocation fails.
pub fn full_report(alloc: Global) -> Result<Report, AllocError> {
    let report = Report::new(full_diagnostic(alloc)?);
    Ok(report.with_cause_texts(texts_of(alloc, &["b", "c"])?))
}

fn is_refused(alloc: Global) -> Result<u32> {
    bail!(in alloc; "7 is too much")
}

fn is_held(alloc: Global, number: u32) -> Result<u32> {
    ensure!(in alloc; number < 7, "7 is too much");
    Ok(number)
}

/// Prints the report, or that allocation failed.
fn made(row: &mut Rows, answer: Result<Report, AllocError>) {
    match answer {
        Ok(report) => row.report(VALUE, &report),
        Err(AllocError) => row.refused(),
    }
}

/// Prints the report with its context, or as it came back.
fn put_before(row: &mut Rows, answer: Result<Report, Report>) {
    match answer {
        Ok(report) => row.report(VALUE, &report),
        Err(report) => row.report(REFUSED, &report),
    }
}

/// Prints the report of a missing value or a failed result.
fn failed(row: &mut Rows, answer: Result<u32>) {
    match answer {
        Ok(value) => row.value(&value),
        Err(report) => row.report_or_refusal(&report),
    }
}
