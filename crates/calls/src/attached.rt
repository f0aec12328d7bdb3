//! Calls that attach labels over further sources, and fixes, to a report.

use crate::fixes::{COLON, colon_fix};
use crate::fixtures::{Label, M, Part, WrittenDiagnostic, list_of, report_with, section_of};
use crate::rows::{CallResult, REFUSED, Rows, VALUE};
use miette::protocol::Diagnostic;
use miette::report::{Report, ReportKind, Snippets};
use miette::source::SourceCode;
use miette_tree::miette;
use std::alloc::{AllocError, Global};

/// The calls of this module.
#[derive(Clone, Copy)]
pub enum PartCall {
    /// Adds these parts to the report `oops!`.
    Parts(&'static [Part]),
    Macro,
}

/// A report with the message `oops!`.
pub static OOPS: WrittenDiagnostic = WrittenDiagnostic {
    message: "oops!",
    ..M
};

/// A label on the first byte.
const FIRST: Part = Part::Snippets(b"a\n", &[(0, 1, 0, "")]);

/// A label on a line feed.
const BEHIND: &[Label] = &[(1, 1, 0, "")];

/// A fix with the message `m` and no edits.
const NO_EDIT: Part = Part::Fix(("m", 0, 0, ""));

/// `Report::with_snippets`.
pub const WITH_SNIPPETS: PartCall = PartCall::Parts(&[FIRST]);

/// `Report::with_owned_snippets`.
pub const WITH_OWNED_SNIPPETS: PartCall = PartCall::Parts(&[
    FIRST,
    Part::OwnedSnippets(b"b\n", BEHIND),
]);

/// `Report::with_all_snippets`.
pub const WITH_ALL_SNIPPETS: PartCall = PartCall::Parts(&[
    FIRST,
    Part::AllSnippets(b"b\n", &[(2, 1, 0, "")]),
]);

/// `Report::with_fix`.
pub const WITH_FIX: PartCall = PartCall::Parts(&[NO_EDIT, Part::Fix(COLON)]);

/// `Report::with_fixes`.
pub const WITH_FIXES: PartCall = PartCall::Parts(&[NO_EDIT, Part::AllFixes(COLON)]);

/// Makes a call and prints its row.
///
/// # Errors
/// If allocating the call's arguments fails.
pub fn make(alloc: Global, call: PartCall, row: &mut Rows) -> CallResult {
    match call {
        PartCall::Parts(parts) => match report_with(alloc, &OOPS, parts) {
            Ok(report) => attached(row, &report),
            Err(AllocError) => row.refused(),
        },
        PartCall::Macro => made_by_macro(row, &by_macro(alloc)?),
    }
    Ok(())
}

fn by_macro(alloc: Global) -> Result<Report, AllocError> {
    Ok(miette!(
        in alloc;
        snippets = list_of(alloc, section_behind(alloc))?,
        code = "a::b",
        fixes = list_of(alloc, colon_fix(alloc))?,
        "7 is too much"
    ))
}

fn section_behind(alloc: Global) -> Result<Snippets, AllocError> {
    section_of(alloc, b"b\n", BEHIND)
}

fn made_by_macro(row: &mut Rows, report: &Report) {
    match report.kind() {
        ReportKind::OutOfMemory => row.report(REFUSED, report),
        _ => attached(row, report),
    }
}

/// Prints a report's message and code, its labels over further sources, and its fixes.
fn attached<D: Diagnostic, S: SourceCode>(row: &mut Rows, report: &Report<D, S>) {
    row.text(VALUE);
    row.text(report.message());
    row.part(", code ", &report.code());
    for section in report.further_snippets() {
        row.part(", over another ", &section.labels());
    }
    row.part(", fixes ", &report.fixes());
}
