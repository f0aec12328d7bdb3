//! The JSON text of a report, part by part: head, reasons, labels, further sources and fixes, related reports.

ghost use Rattle.std.specs.Prelude.{◌≡◌, OnOk, string_bytes, map};
ghost use Rattle.std.specs.Option.{option_map};
ghost use Rattle.miette_tree.specs.rules.Tree.{head, cause_of, causes_of, trees};
ghost use Rattle.miette_tree.specs.views.Report.{tree_of};
ghost use Rattle.miette_tree.specs.views.Owned.{ref_source};
ghost use Rattle.miette_json.specs.rules.Json.{array};
ghost use Rattle.miette_json.specs.rules.JsonReport.{strings};
ghost use Rattle.miette_json.specs.rules.Writing.{with_items, with_value};
ghost use Rattle.miette_json.specs.steps.JsonParts.{with_head, with_reasons};
ghost use Rattle.miette_json.specs.steps.JsonParts.{AppendsJsonReport, AppendsJsonRelated};

use crate::labels::push_file_and_labels;
use crate::snippets_and_fixes::push_snippets_and_fixes;
use crate::writer::JsonWriter;
use miette_protocol::protocol::Diagnostic;
use miette_protocol::source::SourceCode;
use miette_tree::parts::{cause_texts, effective_source, labels_of, severity_name};
use miette_tree::report::{Cause, Report, SourceRef};
use std::alloc::AllocError;

/// Appends the object of a report that may inherit a source.
#[cycle(report)]
pub(crate) fn push_report<'a, D: Diagnostic, S: SourceCode>(
    json: &mut JsonWriter,
    report: &'a Report<D, S>,
    inherited: Option<SourceRef<'a, S>>,
) -> Result<(), AllocError>
    ensures { OnOk result (AppendsJsonReport (option_map (ref_source S.source) inherited.entry)
        (tree_of D.meaning S.source report.now) json.old json.new) }
{
    let source = effective_source(report, inherited);
    json.begin_object()?;
    push_head(json, report)?;
    push_reasons(json, report)?;
    push_file_and_labels(json, labels_of(report), source)?;
    push_snippets_and_fixes(json, report)?;
    json.key("related")?;
    push_related(json, report.related(), source)?;
    json.end_object()
}

/// Appends the list of related reports.
#[cycle(report)]
fn push_related<'a, D: Diagnostic, S: SourceCode>(
    json: &mut JsonWriter,
    reports: &'a [Report<D, S>],
    source: Option<SourceRef<'a, S>>,
) -> Result<(), AllocError>
    ensures { OnOk result (AppendsJsonRelated (option_map (ref_source S.source) source.entry)
        (trees (map (tree_of D.meaning S.source) reports.now)) json.old json.new) }
{
    json.begin_list()?;
    for report in reports {
        push_report(json, report, source)?;
    }
    json.end_list()
}

/// `"message": "m","code": "c","severity": "error"`
fn push_head<D: Diagnostic, S: SourceCode>(
    json: &mut JsonWriter,
    report: &Report<D, S>,
) -> Result<(), AllocError>
    ensures { OnOk result (json.new ≡ with_head (head (tree_of D.meaning S.source report.now)) json.old) }
{
    json.string_member("message", report.message())?;
    json.optional_string_member("code", report.code())?;
    json.string_member("severity", severity_name(report.severity()))
}

/// `"causes": ["a","b"],"url": "u","help": "h"`
fn push_reasons<D: Diagnostic, S: SourceCode>(
    json: &mut JsonWriter,
    report: &Report<D, S>,
) -> Result<(), AllocError>
    ensures { OnOk result (json.new
        ≡ with_reasons (causes_of (cause_of (tree_of D.meaning S.source report.now)))
        (head (tree_of D.meaning S.source report.now)) json.old) }
{
    json.key("causes")?;
    push_causes(json, report)?;
    json.optional_string_member("url", report.url())?;
    json.optional_string_member("help", report.help())
}

/// Appends the list of a report's causes.
fn push_causes<D: Diagnostic, S: SourceCode>(
    json: &mut JsonWriter,
    report: &Report<D, S>,
) -> Result<(), AllocError>
    ensures { OnOk result (json.new
        ≡ with_value (array (strings (causes_of (cause_of (tree_of D.meaning S.source report.now))))) json.old) }
{
    json.begin_list()?;
    let mut at = report;
    while let Cause::Diagnostic(next) = at.cause() {
        json.string(next.message())?;
        at = next;
    }
    push_texts(json, cause_texts(at))?;
    json.end_list()
}

/// Appends texts as list items.
fn push_texts(json: &mut JsonWriter, texts: &[String]) -> Result<(), AllocError>
    ensures { OnOk result (json.new ≡ with_items (strings (map string_bytes texts.now)) json.old) }
{
    for text in texts {
        json.string(text.as_str())?;
    }
    Ok(())
}
