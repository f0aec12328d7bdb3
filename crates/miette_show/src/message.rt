//! The output of `show` for a part of the input.

ghost use Rattle.std.specs.Prelude.{◌≡◌, IfOk, OnErr, OnOk, Some, map, string_bytes, true};
ghost use Rattle.std.specs.List.{All};
ghost use Rattle.serde_json.specs.View.{view};
ghost use Rattle.miette_tree.specs.rules.Reads.{AlwaysReads, report_in_bounds};
ghost use Rattle.miette_tree.specs.views.Report.{tree_of};
ghost use Rattle.miette_program.specs.rules.JobText.{IsGiven, IsLed, JobHandlerStays};
ghost use Rattle.miette_show_rows.specs.rules.Looking.{Goes, IsFoundBy};
ghost use Rattle.miette_show.specs.rules.ShownRow.{IsShown};
ghost use Rattle.miette_show.specs.rules.ValueKinds.{begins_message, failure_of, value_trees};
ghost use Rattle.miette_show.specs.views.Texts.{AreTexts, IsPushed, IsValueText};

use crate::rows::{InputRow, either, is_error};
use crate::value_kinds::{begins_message, reports_of_value, value_kind};
use crate::words::Format;
use miette_devices::fault::ProgramError;
use miette_highlight::highlight::Highlighter;
use miette_program::job_handler::JobHandler;
use miette_protocol::protocol::Diagnostic;
use miette_protocol::source::SourceCode;
use miette_read::files::Files;
use miette_read::rustc::ReadError;
use miette_show_rows::loader::{FileLoader, load_named_files};
use miette_show_rows::value::parse_value;
use miette_show_rows::verdict::RowKind;
use miette_tree::report::Report;
use serde_json::Value;
use std::alloc::Global;

/// Renders a report whose labels are in bounds. It isn't refused.
fn accepted_text<H: Highlighter, D: Diagnostic, S: SourceCode>(
    alloc: Global,
    handler: &mut JobHandler<H>,
    report: &Report<D, S>,
) -> Result<String, ProgramError>
    requires reads { AlwaysReads (tree_of D.meaning S.source report.now) }
    requires accepted { report_in_bounds (tree_of D.meaning S.source report.now) ≡ true }
    ensures ok { IfOk result (λ text. IsGiven H.is_blank H.may_follow handler.old
        (tree_of D.meaning S.source report.now) (string_bytes text)) }
    ensures others { OnErr result (result ≡ Err ProgramError.Memory) }
    ensures stays { JobHandlerStays H.is_blank handler.old handler.new }
    ensures led { OnOk result (IsLed H.may_follow handler.old handler.new) }
{
    handler.render(alloc, report)
}

/// Appends the text of such a report and an empty line. Returns whether the report is an error.
fn push_text<H: Highlighter, D: Diagnostic, S: SourceCode>(
    text: &mut String,
    alloc: Global,
    handler: &mut JobHandler<H>,
    report: &Report<D, S>,
) -> Result<bool, ProgramError>
    requires reads { AlwaysReads (tree_of D.meaning S.source report.now) }
    requires accepted { report_in_bounds (tree_of D.meaning S.source report.now) ≡ true }
    ensures text { IfOk result (λ error. IsPushed (IsGiven H.is_blank H.may_follow handler.old)
        (tree_of D.meaning S.source report.now) error (string_bytes text.old) (string_bytes text.new)) }
    ensures others { OnErr result (result ≡ Err ProgramError.Memory) }
    ensures stays { JobHandlerStays H.is_blank handler.old handler.new }
    ensures led { OnOk result (IsLed H.may_follow handler.old handler.new) }
{
    let error = is_error(report.severity());
    let mut drawn = accepted_text(alloc, handler, report)?;
    drawn.push('\n')?;
    text.push_str(drawn.as_str())?;
    Ok(error)
}

/// Renders such reports with an empty line after each. Returns whether one is an error, and the text.
fn texts_of<H: Highlighter, D: Diagnostic, S: SourceCode>(
    alloc: Global,
    handler: &mut JobHandler<H>,
    reports: &[Report<D, S>],
) -> Result<(bool, String), ProgramError>
    requires reads { All AlwaysReads (map (tree_of D.meaning S.source) reports.now) }
    requires accepted { All (λ t. report_in_bounds t ≡ true) (map (tree_of D.meaning S.source) reports.now) }
    ensures texts { IfOk result (λ it. AreTexts (IsGiven H.is_blank H.may_follow handler.old)
        (map (tree_of D.meaning S.source) reports.now) it.0 (string_bytes it.1)) }
    ensures others { OnErr result (result ≡ Err ProgramError.Memory) }
    ensures stays { JobHandlerStays H.is_blank handler.old handler.new }
    ensures led { OnOk result (IsLed H.may_follow handler.old handler.new) }
{
    let mut text = String::new(alloc);
    let mut error = false;
    for report in reports {
        let grave = push_text(&mut text, alloc, handler, report)?;
        error = either(error, grave);
    }
    Ok((error, text))
}

/// Returns the kind of a value and its output. The files were looked up before.
#[tactic(auto, using(crate::proofs::Showing::led_still))]
fn value_text<H: Highlighter, F: Files>(
    alloc: Global,
    handler: &mut JobHandler<H>,
    from: Format,
    files: &F,
    value: &Value,
) -> Result<(RowKind, String), ProgramError>
    ensures text { IfOk result (λ it. IsValueText (IsGiven H.is_blank H.may_follow handler.old)
        (value_trees from (F.found files.now) (view value.now)) (failure_of from (view value.now)) it.0
        (string_bytes it.1)) }
    ensures others { OnErr result (result ≡ Err ProgramError.Memory) }
    ensures stays { JobHandlerStays H.is_blank handler.old handler.new }
    ensures led { OnOk result (IsLed H.may_follow handler.old handler.new) }
{
    let reports = match reports_of_value(alloc, from, files, value) {
        Ok(reports) => reports,
        Err(ReadError::NoMessage) => return Ok((RowKind::Unread, String::new(alloc))),
        Err(ReadError::Memory) => return Err(ProgramError::Memory),
    };
    let (error, text) = texts_of(alloc, handler, reports.as_slice())?;
    Ok((value_kind(from, value, error), text))
}

/// Returns the kind of a part and its output.
#[tactic(auto, using(crate::proofs::Showing::led_still))]
pub(crate) fn row_text<H: Highlighter, F: FileLoader>(
    alloc: Global,
    handler: &mut JobHandler<H>,
    files: &mut F,
    row: InputRow<'_>,
) -> Result<(RowKind, String), ProgramError>
    ensures shown { IfOk result (λ it. IsShown row.entry.from (IsGiven H.is_blank H.may_follow handler.old)
        (IsFoundBy F.found F.knows files.old)
        (record { row = row.entry.bytes.now; kind = it.0; text = string_bytes it.1 })) }
    ensures others { OnErr result (result ≡ Err ProgramError.Memory) }
    ensures stays { JobHandlerStays H.is_blank handler.old handler.new }
    ensures led { OnOk result (IsLed H.may_follow handler.old handler.new) }
    ensures goes { Goes (F.found files.old) (F.knows files.old) (F.found files.new) (F.knows files.new) }
{
    if !begins_message(row.from, row.bytes) {
        return Ok((RowKind::Passed, String::new(alloc)));
    }
    let Some(value) = parse_value(alloc, row.bytes)? else {
        return Ok((RowKind::Unread, String::new(alloc)));
    };
    load_named_files(alloc, files, &value)?;
    value_text(alloc, handler, row.from, files, &value)
}
