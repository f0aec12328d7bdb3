//! Calls of diagnostics.

use crate::fixtures::{Label, M, Part, WrittenDiagnostic, diagnostic_of, labels_of};
use crate::rows::{CallResult, Rows};
use miette::diagnostic::MietteDiagnostic;
use miette::protocol::{LabeledSpan, Severity};
use miette_tree::diagnostic;
use std::alloc::{AllocError, Global};

/// The calls of this module.
#[derive(Clone, Copy)]
pub enum DiagnosticCall {
    New,
    Copied,
    WithCode,
    WithHelp,
    WithUrl,
    WithLabel,
    WithLabelsFrom,
    AndLabel,
    AndLabels,
    Clones,
    Macro,
}

/// Makes a call and prints its row.
///
/// # Errors
/// If allocating the call's arguments fails.
pub fn make(alloc: Global, call: DiagnosticCall, row: &mut Rows) -> CallResult {
    match call {
        DiagnosticCall::New => row.answer(MietteDiagnostic::new(alloc, "oops!")),
        DiagnosticCall::Macro => row.answer(by_macro(alloc)),
        DiagnosticCall::Clones => return row.clones(full_diagnostic(alloc)),
        DiagnosticCall::WithLabel | DiagnosticCall::AndLabel => return with_label(alloc, call, row),
        DiagnosticCall::WithLabelsFrom | DiagnosticCall::AndLabels => return with_labels(
            alloc, call, row,
        ),
        _ => {
            let full = given_diagnostic(alloc, row)?;
            row.answer(changed(alloc, call, full));
        }
    }
    Ok(())
}

fn by_macro(alloc: Global) -> Result<MietteDiagnostic, AllocError> {
    diagnostic!(
        in alloc;
        code = "a::b", help = "try", url = "http://x", severity = Severity::Warning, "{} is too much", 7
    )
}

/// Returns the diagnostic that a call starts from, and prints it.
///
/// # Errors
/// If allocation fails.
pub fn given_diagnostic(alloc: Global, row: &mut Rows) -> Result<MietteDiagnostic, AllocError> {
    let full = full_diagnostic(alloc)?;
    row.value(&full);
    Ok(full)
}

/// Returns the diagnostic after a call.
fn changed(
    alloc: Global,
    call: DiagnosticCall,
    full: MietteDiagnostic,
) -> Result<MietteDiagnostic, AllocError> {
    match call {
        DiagnosticCall::WithCode => full.with_code(alloc, "c::d"),
        DiagnosticCall::WithHelp => full.with_help(alloc, "try again"),
        DiagnosticCall::WithUrl => full.with_url(alloc, "http://y"),
        _ => {
            let copy = MietteDiagnostic::copied(alloc, &full);
            drop(full);
            copy
        }
    }
}

fn with_label(alloc: Global, call: DiagnosticCall, row: &mut Rows) -> CallResult {
    let label = LabeledSpan::at(alloc, (0, 6), "and this")?;
    let full = given_diagnostic(alloc, row)?;
    row.answer(match call {
        DiagnosticCall::WithLabel => full.with_label(alloc, label),
        _ => full.and_label(alloc, label),
    });
    Ok(())
}

fn with_labels(alloc: Global, call: DiagnosticCall, row: &mut Rows) -> CallResult {
    let labels = labels_of(alloc, two_labels(call))?;
    let full = given_diagnostic(alloc, row)?;
    row.answer(match call {
        DiagnosticCall::AndLabels => full.and_labels(alloc, labels),
        _ => full.with_labels_from(alloc, labels),
    });
    Ok(())
}

fn two_labels(call: DiagnosticCall) -> &'static [Label] {
    match call {
        DiagnosticCall::AndLabels => &TWO,
        _ => &UNDERLINED,
    }
}

/// Two labels.
static TWO: [Label; 2] = [(0, 6, 0, "first"), (18, 4, 0, "second")];

/// Two labels without a text.
static UNDERLINED: [Label; 2] = [(4, 0, 0, ""), (7, 0, 0, "")];

/// Two cause texts.
pub static CAUSES: [Part; 1] = [Part::CauseTexts(&["b", "c"])];

/// A diagnostic with all parts.
pub static FULL: WrittenDiagnostic = ALL_PARTS;

/// The same as one part.
pub const ALL_PARTS: WrittenDiagnostic = WrittenDiagnostic {
    message: "oops!",
    code: "a::b",
    url: "http://x",
    help: "try",
    severity: Some(Severity::Warning),
    labels: &[(9, 4, 0, "This bit here")],
    ..M
};

/// Returns a diagnostic with all parts. The capacity of its labels is exact.
///
/// # Errors
/// If allocation fails.
pub fn full_diagnostic(alloc: Global) -> Result<MietteDiagnostic, AllocError> {
    diagnostic_of(alloc, &FULL)
}
