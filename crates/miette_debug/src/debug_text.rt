//! The text of a debug report.

ghost use Rattle.std.specs.Prelude.{◌≡◌, IfOk, OnOk, string_bytes};
ghost use Rattle.std.specs.Option.{option_copied};
ghost use Rattle.miette_tree.specs.rules.Tree.{head, cause_of, causes_of};
ghost use Rattle.miette_tree.specs.views.Handler.{AppendsOne};
ghost use Rattle.miette_tree.specs.views.Report.{tree_of};
ghost use Rattle.miette_debug.specs.rules.DebugText.{IsDebugText, AreFields, IsField, IsLabelsField, IsQuoted};
ghost use Rattle.miette_debug.specs.rules.DebugText.{nearest_cause, severity_variant};

use miette_protocol::protocol::{Diagnostic, LabeledSpan, Severity};
use miette_protocol::source::SourceCode;
use miette_tree::parts::labels_of;
use miette_tree::report::{Cause, Report};
use std::alloc::{AllocError, Global};

/// `Diagnostic { message: "m", code: "c", severity: "Warning", caused by: "b" }`
pub(crate) fn debug_fields<D: Diagnostic, S: SourceCode>(
    alloc: Global,
    report: &Report<D, S>,
) -> Result<String, AllocError>
    ensures { IfOk result (λ text. IsDebugText (tree_of D.meaning S.source report.now) (string_bytes text)) }
{
    let mut text = String::new(alloc);
    push_fields(&mut text, alloc, report)?;
    Ok(text)
}

/// Appends the fields of a report.
fn push_fields<D: Diagnostic, S: SourceCode>(
    out: &mut String,
    alloc: Global,
    report: &Report<D, S>,
) -> Result<(), AllocError>
    ensures { OnOk result (AppendsOne (IsDebugText (tree_of D.meaning S.source report.now)) (string_bytes out.old)
        (string_bytes out.new)) }
{
    out.push_str("Diagnostic { message: ")?;
    push_quoted(out, alloc, report.message())?;
    push_members(out, alloc, report)?;
    push_labels(out, alloc, labels_of(report))?;
    push_field(out, alloc, "caused by", cause_name(report))?;
    out.push_str(" }\n")
}

/// `, code: "c", severity: "Warning", url: "u", help: "h"`, without the parts that are missing.
fn push_members<D: Diagnostic, S: SourceCode>(
    out: &mut String,
    alloc: Global,
    report: &Report<D, S>,
) -> Result<(), AllocError>
    ensures { OnOk result (AppendsOne (AreFields (head (tree_of D.meaning S.source report.now)))
        (string_bytes out.old) (string_bytes out.new)) }
{
    push_field(out, alloc, "code", report.code())?;
    push_field(out, alloc, "severity", severity_variant(report.severity()))?;
    push_field(out, alloc, "url", report.url())?;
    push_field(out, alloc, "help", report.help())
}

/// Appends a text in quotes, with its escapes.
fn push_quoted(out: &mut String, alloc: Global, text: &str) -> Result<(), AllocError>
    ensures { OnOk result (AppendsOne (IsQuoted text.now) (string_bytes out.old) (string_bytes out.new)) }
{
    let quoted = format!(in alloc; "{text:?}")?;
    out.push_str(quoted.as_str())
}

/// `, code: "c"`, or nothing without a text.
fn push_field(
    out: &mut String,
    alloc: Global,
    name: &str,
    text: Option<&str>,
) -> Result<(), AllocError>
    ensures { OnOk result (AppendsOne (IsField name.now (option_copied text.entry)) (string_bytes out.old)
        (string_bytes out.new)) }
{
    let Some(text) = text else {
        return Ok(());
    };
    out.push_str(", ")?;
    out.push_str(name)?;
    out.push_str(": ")?;
    push_quoted(out, alloc, text)
}

/// `, labels: "[..]"`, or nothing without labels.
fn push_labels(out: &mut String, alloc: Global, labels: &[LabeledSpan]) -> Result<(), AllocError>
    ensures { OnOk result (AppendsOne (IsLabelsField labels.now) (string_bytes out.old) (string_bytes out.new)) }
{
    if labels.is_empty() {
        return Ok(());
    }
    let shown = format!(in alloc; "{labels:?}")?;
    push_field(out, alloc, "labels", Some(shown.as_str()))
}

/// The name of a severity's variant, if one is set.
fn severity_variant(severity: Option<Severity>) -> Option<&'static str>
    ensures { option_copied result ≡ severity_variant severity }
{
    match severity {
        Some(Severity::Advice) => Some("Advice"),
        Some(Severity::Warning) => Some("Warning"),
        Some(Severity::Error) => Some("Error"),
        None => None,
    }
}

/// The message of the nearest cause, or its first text.
fn cause_name<D: Diagnostic, S: SourceCode>(report: &Report<D, S>) -> Option<&str>
    ensures { option_copied result ≡ nearest_cause (causes_of (cause_of (tree_of D.meaning S.source report.now))) }
{
    match report.cause() {
        Cause::Diagnostic(cause) => Some(cause.message()),
        Cause::Texts([first, ..]) => Some(first.as_str()),
        _ => None,
    }
}
