//! Detects the format of a value, and reads its reports, the failures that it reports, and missing output.

ghost use Rattle.std.specs.Prelude.{◌≡◌, Err, IfOk, None, Some, map, true};
ghost use Rattle.std.specs.List.{All, list_any};
ghost use Rattle.serde_json.specs.View.{view};
ghost use Rattle.miette_read.specs.views.Values.{viewed};
ghost use Rattle.miette_tree.specs.rules.Reads.{AlwaysReads, report_in_bounds};
ghost use Rattle.miette_tree.specs.views.Report.{tree_of};
ghost use Rattle.miette_show.specs.rules.ValueKinds.{always_writes, begins_message, build_failed, call_failed};
ghost use Rattle.miette_show.specs.rules.ValueKinds.{ends_build};
ghost use Rattle.miette_show.specs.rules.ValueKinds.{failure_of, is_false_at, is_gcc, is_missing, is_rustc, is_sarif};
ghost use Rattle.miette_show.specs.rules.ValueKinds.{is_shellcheck, kind_by, run_failed, tool_failed, value_trees};

use crate::words::Format;
use miette_protocol::diagnostic::MietteDiagnostic;
use miette_protocol::protocol::Diagnostic;
use miette_protocol::source::SourceCode;
use miette_read::files::{BorrowedFile, Files};
use miette_read::format::{MessageFormat, reports_in};
use miette_read::members::{member_items, member_text, member_value};
use miette_read::rustc::{ReadError, Rustc};
use miette_read_gcc::gcc::Gcc;
use miette_read_sarif::sarif::Sarif;
use miette_read_shellcheck::shellcheck::ShellCheck;
use miette_show_rows::value::{begins_array, begins_object};
use miette_show_rows::verdict::{Failure, RowKind};
use miette_tree::report::Report;
use serde_json::Value;
use std::alloc::Global;

// ---- the format of a value

/// Returns whether a line starts like a value of the format.
pub fn begins_message(from: Format, row: &[u8]) -> bool
    ensures { result ≡ begins_message from row.now }
{
    match from {
        Format::Auto => begins_object(row) || begins_array(row),
        Format::Gcc => begins_array(row),
        Format::Rustc | Format::Sarif | Format::ShellCheck => begins_object(row),
    }
}

/// Returns whether a value is read as GCC's output.
pub fn is_gcc(from: Format, value: &Value) -> bool
    ensures { result ≡ is_gcc from (view value.now) }
{
    matches!(from, Format::Gcc) || (matches!(from, Format::Auto) && Gcc::looks_like(value))
}

/// Returns whether a value is read as a SARIF log.
pub fn is_sarif(from: Format, value: &Value) -> bool
    ensures { result ≡ is_sarif from (view value.now) }
{
    matches!(from, Format::Sarif) || (matches!(from, Format::Auto) && Sarif::looks_like(value))
}

/// Returns whether a value is read as ShellCheck's output.
pub fn is_shellcheck(from: Format, value: &Value) -> bool
    ensures { result ≡ is_shellcheck from (view value.now) }
{
    matches!(from, Format::ShellCheck)
        || (matches!(from, Format::Auto) && ShellCheck::looks_like(value))
}

/// Returns whether a value is read as a line of rustc or cargo. The other formats come first.
pub fn is_rustc(from: Format, value: &Value) -> bool
    ensures { result ≡ is_rustc from (view value.now) }
{
    matches!(from, Format::Rustc) || (matches!(from, Format::Auto) && Rustc::looks_like(value))
}

/// Returns the reports of a value over files that were looked up before. Without a format, it takes the first that the
/// value looks like. The sources of the reports always read, and their labels are in bounds.
///
/// # Errors
/// `NoMessage` if the value is in none of the formats. `Memory` if memory runs out.
pub fn reports_of_value<'f, F: Files>(
    alloc: Global,
    from: Format,
    files: &'f F,
    value: &Value,
) -> Result<Vec<Report<MietteDiagnostic, BorrowedFile<'f>>>, ReadError>
    ensures ok { IfOk result (λ list. value_trees from (F.found files.now) (view value.now)
        ≡ Some (map (tree_of ⟦<MietteDiagnostic as Diagnostic>⟧.meaning
        ⟦<BorrowedFile<'f> as SourceCode>⟧.source) list.items)) }
    ensures reads { IfOk result (λ list. All AlwaysReads
        (map (tree_of ⟦<MietteDiagnostic as Diagnostic>⟧.meaning
        ⟦<BorrowedFile<'f> as SourceCode>⟧.source) list.items)) }
    ensures accepted { IfOk result (λ list. All (λ t. report_in_bounds t ≡ true)
        (map (tree_of ⟦<MietteDiagnostic as Diagnostic>⟧.meaning
        ⟦<BorrowedFile<'f> as SourceCode>⟧.source) list.items)) }
    ensures message { (result ≡ Err ReadError.NoMessage)
        → value_trees from (F.found files.now) (view value.now) ≡ None }
{
    if is_gcc(from, value) {
        reports_in::<Gcc, MietteDiagnostic, F>(alloc, files, value)
    } else if is_sarif(from, value) {
        reports_in::<Sarif, MietteDiagnostic, F>(alloc, files, value)
    } else if is_shellcheck(from, value) {
        reports_in::<ShellCheck, MietteDiagnostic, F>(alloc, files, value)
    } else if is_rustc(from, value) {
        reports_in::<Rustc, MietteDiagnostic, F>(alloc, files, value)
    } else {
        Err(ReadError::NoMessage)
    }
}

// ---- failures

/// Returns whether the flag at a key is there and false.
fn is_false_at(value: &Value, key: &str) -> bool
    ensures { result ≡ is_false_at key.now (view value.now) }
{
    match member_value(value, key) {
        Some(found) => !found.as_bool().unwrap_or(true),
        None => false,
    }
}

/// Returns whether a line is cargo's last one.
fn ends_build(value: &Value) -> bool
    ensures { result ≡ ends_build (view value.now) }
{
    match member_text(value, "reason") {
        Some(reason) => reason == "build-finished",
        None => false,
    }
}

/// Returns whether a line reports a failed build.
fn build_failed(value: &Value) -> bool
    ensures { result ≡ build_failed (view value.now) }
{
    ends_build(value) && is_false_at(value, "success")
}

/// Returns whether an invocation failed.
fn call_failed(invocation: &Value) -> bool
    ensures { result ≡ call_failed (view invocation.now) }
{
    is_false_at(invocation, "executionSuccessful")
}

/// Returns whether one of these invocations failed.
fn any_call_failed(invocations: &[Value]) -> bool
    ensures { result ≡ list_any call_failed (viewed invocations.now) }
{
    invocations.iter().any(|it| call_failed(it))
}

/// Returns whether an invocation of a run's tool failed.
fn run_failed(run: &Value) -> bool
    ensures { result ≡ run_failed (view run.now) }
{
    any_call_failed(member_items(run, "invocations"))
}

/// Returns whether one of these runs failed.
fn any_run_failed(runs: &[Value]) -> bool
    ensures { result ≡ list_any run_failed (viewed runs.now) }
{
    runs.iter().any(|it| run_failed(it))
}

/// Returns whether a log reports a failed tool.
fn tool_failed(value: &Value) -> bool
    ensures { result ≡ tool_failed (view value.now) }
{
    any_run_failed(member_items(value, "runs"))
}

/// Returns the failure that a value reports.
pub fn failure_of(from: Format, value: &Value) -> Option<Failure>
    ensures { result ≡ failure_of from (view value.now) }
{
    if is_sarif(from, value) {
        if tool_failed(value) {
            Some(Failure::Tool)
        } else {
            None
        }
    } else if is_rustc(from, value) && build_failed(value) {
        Some(Failure::Build)
    } else {
        None
    }
}

/// Returns the kind of a value. `grave` says whether one of its messages is an error.
pub fn value_kind(from: Format, value: &Value, grave: bool) -> RowKind
    ensures { result ≡ kind_by (failure_of from (view value.now)) grave }
{
    match failure_of(from, value) {
        Some(what) => RowKind::Failed(what),
        None => RowKind::Messages(grave),
    }
}

// ---- missing output

/// Returns whether tools of this format always write a value, even without messages.
fn always_writes(from: Format) -> bool
    ensures { result ≡ always_writes from }
{
    matches!(from, Format::Gcc | Format::Sarif | Format::ShellCheck)
}

/// Returns whether the tool's output is missing. `seen` says whether a value of the format was read.
pub fn is_missing(from: Format, seen: bool) -> bool
    ensures { result ≡ is_missing from seen }
{
    always_writes(from) && !seen
}
