//! The narrated text of a report, part by part.

ghost use Rattle.std.specs.Prelude.{◌≡◌, ◌++◌, false, OnOk, IfOk, string_bytes, map, option_copied};
ghost use Rattle.std.specs.Option.{option_map};
ghost use Rattle.miette_tree.specs.rules.Tree.{head, cause_of, causes_of, trees};
ghost use Rattle.miette_tree.specs.views.Report.{tree_of};
ghost use Rattle.miette_tree.specs.views.Owned.{ref_source};
ghost use Rattle.miette_narrated.specs.rules.Report.{severity_row, head_rows, related_head_rows, cause_rows};
ghost use Rattle.miette_narrated.specs.rules.Report.{causes_if, url_rows, blank_before};
ghost use Rattle.miette_narrated.specs.steps.AppendedParts.{AppendsNarratedAdvice, AppendsBelow, AppendsNarratedReport};
ghost use Rattle.miette_narrated.specs.steps.AppendedParts.{AppendsNarratedRelated, labels_accepted};
ghost use Rattle.miette_narrated.specs.rules.PossibleAnswers.{IsNarrated};
ghost use Rattle.miette_tree.specs.rules.Reads.{accepts, report_passes, reports_pass, report_in_bounds};
ghost use Rattle.miette_narrated.specs.steps.NarrationSettings.{narration_settings_of};

use crate::fixes::push_fixes;
use crate::rows::{AppendResult, push_row, push_row_if};
use crate::sections::push_all_snippets;
use crate::settings::NarrationSettings;
use miette_protocol::error::RenderError;
use miette_protocol::protocol::{Diagnostic, Severity};
use miette_protocol::source::SourceCode;
use miette_tree::parts::{cause_texts, effective_source, severity_name, severity_title};
use miette_tree::report::{Cause, Report, SourceRef};
use std::alloc::Global;

/// `    Diagnostic severity: error`
fn push_severity(out: &mut String, severity: Option<Severity>) -> AppendResult
    ensures { OnOk result (string_bytes out.new ≡ string_bytes out.old ++ severity_row severity) }
{
    push_row(out, "    Diagnostic severity: ", severity_name(severity))
}

/// Appends the message and the severity of the outermost report.
fn push_head<D: Diagnostic, S: SourceCode>(out: &mut String, report: &Report<D, S>) -> AppendResult
    ensures { OnOk result (string_bytes out.new
        ≡ string_bytes out.old ++ head_rows (head (tree_of D.meaning S.source report.now))) }
{
    push_row(out, "", report.message())?;
    push_severity(out, report.severity())
}

/// Appends the head of a related report: title and message, severity, and a blank line.
fn push_related_head<D: Diagnostic, S: SourceCode>(
    out: &mut String,
    report: &Report<D, S>,
) -> AppendResult
    ensures { OnOk result (string_bytes out.new
        ≡ string_bytes out.old ++ related_head_rows (head (tree_of D.meaning S.source report.now))) }
{
    push_row(out, severity_title(report.severity()), report.message())?;
    push_severity(out, report.severity())?;
    push_row(out, "", "")
}

/// Appends a line for each cause of a report.
fn push_causes<D: Diagnostic, S: SourceCode>(
    out: &mut String,
    report: &Report<D, S>,
) -> AppendResult
    ensures { OnOk result (string_bytes out.new
        ≡ string_bytes out.old ++ cause_rows (causes_of (cause_of (tree_of D.meaning S.source report.now)))) }
{
    let mut at = report;
    while let Cause::Diagnostic(next) = at.cause() {
        push_row(out, "    Caused by: ", next.message())?;
        at = next;
    }
    for text in cause_texts(at) {
        push_row(out, "    Caused by: ", text.as_str())?;
    }
    Ok(())
}

/// Appends the causes if `told` is set.
fn push_causes_if<D: Diagnostic, S: SourceCode>(
    out: &mut String,
    told: bool,
    report: &Report<D, S>,
) -> AppendResult
    ensures { OnOk result (string_bytes out.new
        ≡ string_bytes out.old ++ causes_if told (causes_of (cause_of (tree_of D.meaning S.source report.now)))) }
{
    if told {
        push_causes(out, report)
    } else {
        Ok(())
    }
}

/// Appends the url on a line below its title.
fn push_url(out: &mut String, url: Option<&str>) -> AppendResult
    ensures { OnOk result (string_bytes out.new ≡ string_bytes out.old ++ url_rows (option_copied url.entry)) }
{
    if let Some(url) = url {
        push_row(out, "For more details, see:", "")?;
        push_row(out, "", url)
    } else {
        Ok(())
    }
}

/// Appends help, fixes, code and url. Fixes apply to `source`.
fn push_advice<D: Diagnostic, S: SourceCode>(
    out: &mut String,
    alloc: Global,
    report: &Report<D, S>,
    source: Option<SourceRef<'_, S>>,
) -> AppendResult
    ensures { OnOk result (AppendsNarratedAdvice (option_map (ref_source S.source) source.entry)
        (head (tree_of D.meaning S.source report.now)) (string_bytes out.old) (string_bytes out.new)) }
{
    push_row_if(out, "diagnostic help: ", report.help())?;
    push_fixes(out, alloc, report.fixes(), source)?;
    push_row_if(out, "diagnostic code: ", report.code())?;
    push_url(out, report.url())
}

/// Appends all that follows the causes of a report: snippets, help, fixes, code and url.
fn push_below<D: Diagnostic, S: SourceCode>(
    out: &mut String,
    alloc: Global,
    context: usize,
    report: &Report<D, S>,
    source: Option<SourceRef<'_, S>>,
) -> Result<(), RenderError>
    ensures text { OnOk result (AppendsBelow context (option_map (ref_source S.source) source.entry)
        (head (tree_of D.meaning S.source report.now)) (string_bytes out.old) (string_bytes out.new)) }
    ensures refused { (result ≡ Err RenderError.Refused) →
        labels_accepted (option_map (ref_source S.source) source.entry)
        (head (tree_of D.meaning S.source report.now)) ≡ false }
{
    push_all_snippets(out, alloc, context, report, source)?;
    push_advice(out, alloc, report, source)?;
    Ok(())
}

/// Appends a blank line if there are related reports.
fn push_blank_before<D: Diagnostic, S: SourceCode>(
    out: &mut String,
    reports: &[Report<D, S>],
) -> AppendResult
    ensures { OnOk result (string_bytes out.new
        ≡ string_bytes out.old ++ blank_before (trees (map (tree_of D.meaning S.source) reports.now))) }
{
    if reports.is_empty() {
        return Ok(());
    }
    push_row(out, "", "")
}

/// Appends a related report. `inherited` is the source of the report above.
#[cycle(report)]
fn push_report<'a, D: Diagnostic, S: SourceCode>(
    out: &mut String,
    alloc: Global,
    context: usize,
    report: &'a Report<D, S>,
    inherited: Option<SourceRef<'a, S>>,
) -> Result<(), RenderError>
    ensures text { OnOk result (AppendsNarratedReport context (option_map (ref_source S.source) inherited.entry)
        (tree_of D.meaning S.source report.now) (string_bytes out.old) (string_bytes out.new)) }
    ensures refused { (result ≡ Err RenderError.Refused) →
        report_passes accepts (option_map (ref_source S.source) inherited.entry) (tree_of D.meaning S.source report.now)
        ≡ false }
{
    let source = effective_source(report, inherited);
    push_related_head(out, report)?;
    push_causes(out, report)?;
    push_below(out, alloc, context, report, source)?;
    push_related(out, alloc, context, report.related(), source)
}

/// Appends a blank line and the related reports of a report with this source.
#[cycle(report)]
fn push_related<'a, D: Diagnostic, S: SourceCode>(
    out: &mut String,
    alloc: Global,
    context: usize,
    reports: &'a [Report<D, S>],
    source: Option<SourceRef<'a, S>>,
) -> Result<(), RenderError>
    ensures text { OnOk result (AppendsNarratedRelated context (option_map (ref_source S.source) source.entry)
        (trees (map (tree_of D.meaning S.source) reports.now)) (string_bytes out.old) (string_bytes out.new)) }
    ensures refused { (result ≡ Err RenderError.Refused) →
        reports_pass accepts (option_map (ref_source S.source) source.entry)
        (trees (map (tree_of D.meaning S.source) reports.now)) ≡ false }
{
    push_blank_before(out, reports)?;
    for report in reports {
        push_report(out, alloc, context, report, source)?;
    }
    Ok(())
}

/// Returns the narrated text of a report.
pub(crate) fn narration_of<D: Diagnostic, S: SourceCode>(
    alloc: Global,
    settings: NarrationSettings<'_>,
    report: &Report<D, S>,
) -> Result<String, RenderError>
    ensures text { IfOk result (λ text. IsNarrated (narration_settings_of settings.entry)
        (tree_of D.meaning S.source report.now)
        (string_bytes text)) }
    ensures refused { (result ≡ Err RenderError.Refused) →
        report_in_bounds (tree_of D.meaning S.source report.now) ≡ false }
{
    let mut text = String::new(alloc);
    let source = effective_source(report, None);
    push_head(&mut text, report)?;
    push_causes_if(&mut text, settings.cause_chain, report)?;
    push_below(&mut text, alloc, settings.context_lines, report, source)?;
    push_related(
        &mut text,
        alloc,
        settings.context_lines,
        report.related(),
        source,
    )?;
    push_row_if(&mut text, "", settings.footer)?;
    Ok(text)
}
