//! The reports of findings in a source, in each output form.

ghost use Rattle.std.specs.Prelude.{◌≡◌, ◌++◌, IfOk, OnErr, OnOk, None, false, map, string_bytes};
ghost use Rattle.miette_lines.specs.rules.Lists.{is_nil};
ghost use Rattle.miette_protocol.specs.views.Diagnostic.{meaning_of};
ghost use Rattle.miette_tree.specs.views.Report.{tree_of};
ghost use Rattle.miette_tree.specs.rules.Tree.{trees, with_fix};
ghost use Rattle.miette_labels.specs.rules.Groups.{AreInBounds};
ghost use Rattle.miette_lint.specs.rules.FindingWithFixes.{coded_findings};
ghost use Rattle.miette_lint.specs.rules.Findings.{findings_of};
ghost use Rattle.miette_lint.specs.rules.Combined.{combined_proposal};
ghost use Rattle.miette_lint.specs.views.Found.{coded_of};
ghost use Rattle.miette_tree.specs.rules.DiagnosticParts.{given_labels};
ghost use Rattle.miette_tree.specs.rules.Reads.{AllAlwaysRead, accepts, reports_pass};
ghost use Rattle.miette_draw.specs.rules.Pictures.{over_input};
ghost use Rattle.miette_lint_program.specs.rules.Logs.{finding_tree, finding_trees, lint_log};
ghost use Rattle.miette_lint_program.specs.views.LintReports.{commands_of, count_text, label_of, picture, report_in};
ghost use Rattle.miette_lint_program.specs.views.LintReports.{report_on, rows_text, warning};
ghost use Rattle.miette_lint_program.specs.views.Requests.{check_of, output_of};

use crate::lint_request::{LintCheck, LintOutput};
use itoa::Buffer;
use miette_brief::form::BriefForm;
use miette_brief::handler::BriefReportHandler;
use miette_devices::fault::ProgramError;
use miette_draw::drawing::{draw, draw_diagnostic, report};
use miette_lint::coded::{CodedFinding, coded_findings};
use miette_lint::combined::combined_proposal;
use miette_lint::findings::findings;
use miette_lint::laws::lint_finding_laws;
use miette_lsp::logs::log_of;
use miette_protocol::diagnostic::MietteDiagnostic;
use miette_protocol::error::RenderError;
use miette_protocol::protocol::{Diagnostic, LabeledSpan, Severity};
use miette_protocol::source::SourceCode;
use miette_tree::report::{OwnedSource, Report};
use std::alloc::{AllocError, Global};

// Builds the report of a finding.
fn report_of<D: Diagnostic, S: SourceCode>(
    alloc: Global,
    finding: CodedFinding,
) -> Result<Report<D, S>, AllocError>
    ensures { IfOk result (λ it. tree_of D.meaning S.source it ≡ finding_tree (coded_of finding)) }
{
    let CodedFinding { code, label, fixes } = finding;
    let diagnostic = MietteDiagnostic::new(alloc, label.label().unwrap_or(""))?
        .with_code(alloc, code)?
        .with_severity(Severity::Warning);
    let mut place = label;
    place.set_label(None);
    let mut labels = Vec::with_capacity(alloc, 1)?;
    labels.push(place)?;
    Report::built(diagnostic.with_labels(labels)).with_fixes(alloc, fixes)
}

// Builds the reports of findings.
fn reports_of<D: Diagnostic, S: SourceCode>(
    alloc: Global,
    found: Vec<CodedFinding>,
) -> Result<Vec<Report<D, S>>, AllocError>
    ensures { IfOk result (λ list. map (tree_of D.meaning S.source) list.items
        ≡ map finding_tree (map coded_of found.items)) }
{
    let mut reports = Vec::with_capacity(alloc, found.len())?;
    for finding in found {
        let report = report_of(alloc, finding)?;
        reports.push(report)?;
    }
    Ok(reports)
}

// Builds the reports of findings in the named input. The first one has the source, with a line index, and the others
// are related to it.
fn reports_over<D: Diagnostic, S: SourceCode>(
    alloc: Global,
    name: &str,
    found: Vec<CodedFinding>,
    input: Vec<u8>,
) -> Result<Vec<Report<D, S>>, AllocError>
    ensures { IfOk result (λ list. trees (map (tree_of D.meaning S.source) list.items)
        ≡ finding_trees name.now input.items (map coded_of found.items)) }
{
    let mut reports = reports_of(alloc, found)?;
    if reports.as_slice().is_empty() {
        return Ok(reports);
    }
    let first = reports.remove(0);
    let source = OwnedSource::named(alloc, name, None, input)?;
    let mut list = Vec::with_capacity(alloc, 1)?;
    list.push(first.with_related(reports).with_owned_source(source))?;
    Ok(list)
}

// Appends the GitHub commands of reports whose sources always read.
fn push_commands<D: Diagnostic, S: SourceCode>(
    text: &mut String,
    reports: &[Report<D, S>],
) -> Result<(), RenderError>
    requires reads { AllAlwaysRead (trees (map (tree_of D.meaning S.source) reports.now)) }
    ensures ok { OnOk result (string_bytes text.new ≡ string_bytes text.old
        ++ commands_of (trees (map (tree_of D.meaning S.source) reports.now))) }
    ensures refused { (result ≡ Err RenderError.Refused) → reports_pass accepts None
        (trees (map (tree_of D.meaning S.source) reports.now)) ≡ false }
{
    let handler = BriefReportHandler::new().with_form(BriefForm::Github);
    for report in reports {
        handler.render(report, text)?;
    }
    Ok(())
}

// Renders a GitHub workflow command for each finding in the named input.
fn commands_over(
    alloc: Global,
    name: &str,
    found: Vec<CodedFinding>,
    input: Vec<u8>,
) -> Result<String, RenderError>
    ensures ok { IfOk result (λ text. string_bytes text
        ≡ commands_of (finding_trees name.now input.items (map coded_of found.items))) }
    ensures accepted { AreInBounds input.items (map label_of (map coded_of found.items))
        → ¬ (result ≡ Err RenderError.Refused) }
{
    let reports: Vec<Report> = match reports_over(alloc, name, found, input) {
        Ok(reports) => reports,
        Err(_) => return Err(RenderError::Memory),
    };
    let mut text = String::new(alloc);
    push_commands(&mut text, reports.as_slice())?;
    Ok(text)
}

// Renders the brief report of a diagnostic over the named input.
fn rows_over(
    alloc: Global,
    name: &str,
    diagnostic: MietteDiagnostic,
    input: Vec<u8>,
) -> Result<String, RenderError>
    ensures ok { IfOk result (λ text. string_bytes text
        ≡ rows_text (over_input name.now (meaning_of diagnostic) input.items)) }
    ensures accepted { AreInBounds input.items (given_labels (meaning_of diagnostic).labels)
        → ¬ (result ≡ Err RenderError.Refused) }
{
    let report: Report = match report(alloc, name, diagnostic, input) {
        Ok(report) => report,
        Err(_) => return Err(RenderError::Memory),
    };
    let mut text = String::new(alloc);
    BriefReportHandler::new().render_report(&report, &mut text)?;
    Ok(text)
}

// `3 findings`
fn count_text(alloc: Global, count: usize) -> Result<String, AllocError>
    ensures { IfOk result (λ text. string_bytes text ≡ count_text count) }
{
    let mut text = String::from_str(alloc, Buffer::new().format(count))?;
    text.push_str(" findings")?;
    Ok(text)
}

// One warning with the labels.
fn diagnostic(alloc: Global, found: Vec<LabeledSpan>) -> Result<MietteDiagnostic, AllocError>
    ensures { IfOk result (λ it. meaning_of it ≡ warning found.items) }
{
    let message = count_text(alloc, found.len())?;
    let diagnostic = MietteDiagnostic::new(alloc, message.as_str())?;
    Ok(
        diagnostic
            .with_severity(Severity::Warning)
            .with_labels(found),
    )
}

// Renders a graphical report of all findings, with source lines cut at the width.
fn render_picture(
    alloc: Global,
    check: &LintCheck<'_>,
    found: Vec<LabeledSpan>,
    source: Vec<u8>,
) -> Result<String, RenderError>
    ensures text { IfOk result (λ text. string_bytes text
        ≡ picture check.now.width (over_input check.now.name.now (warning found.items) source.items)) }
    ensures accepted { ¬ (result ≡ Err RenderError.Refused) }
{
    let diagnostic = diagnostic(alloc, found)?;
    draw_diagnostic(alloc, check.name, diagnostic, source, Some(check.width))
}

// Renders a brief report of all findings.
fn render_rows(
    alloc: Global,
    check: &LintCheck<'_>,
    found: Vec<LabeledSpan>,
    source: Vec<u8>,
) -> Result<String, RenderError>
    ensures text { IfOk result (λ text. string_bytes text
        ≡ rows_text (over_input check.now.name.now (warning found.items) source.items)) }
    ensures accepted { AreInBounds source.items found.items → ¬ (result ≡ Err RenderError.Refused) }
{
    let diagnostic = diagnostic(alloc, found)?;
    rows_over(alloc, check.name, diagnostic, source)
}

// A command of GitHub for each finding in a source.
fn render_commands(
    alloc: Global,
    check: &LintCheck<'_>,
    source: Vec<u8>,
) -> Result<String, RenderError>
    ensures text { IfOk result (λ text. string_bytes text ≡ commands_of (finding_trees check.now.name.now source.items
        (coded_findings source.items check.now.width))) }
    ensures accepted { ¬ (result ≡ Err RenderError.Refused) }
{
    lint_finding_laws();
    let found = coded_findings(alloc, source.as_slice(), check.width)?;
    commands_over(alloc, check.name, found, source)
}

// The log of a tool of this name, with a result for each finding in a source.
fn render_log(
    alloc: Global,
    check: &LintCheck<'_>,
    tool: &str,
    source: Vec<u8>,
) -> Result<String, RenderError>
    ensures text { IfOk result (λ text. string_bytes text
        ≡ lint_log tool.now check.now.name.now check.now.width source.items) }
    ensures accepted { ¬ (result ≡ Err RenderError.Refused) }
{
    let found = coded_findings(alloc, source.as_slice(), check.width)?;
    let reports: Vec<Report> = reports_over(alloc, check.name, found, source)?;
    match log_of(alloc, tool, reports.as_slice()) {
        Ok(text) => Ok(text),
        Err(_) => Err(RenderError::Memory),
    }
}

// The report of all that is found in a source, with one fix of all that is proposed.
fn report_with_fix<D: Diagnostic, S: SourceCode>(
    alloc: Global,
    check: &LintCheck<'_>,
    found: Vec<LabeledSpan>,
    source: Vec<u8>,
) -> Result<Report<D, S>, AllocError>
    ensures { IfOk result (λ it. tree_of D.meaning S.source it ≡ with_fix (combined_proposal source.items
        check.now.width)
        (over_input check.now.name.now (warning found.items) source.items)) }
{
    let fix = combined_proposal(alloc, source.as_slice(), check.width)?;
    let diagnostic = diagnostic(alloc, found)?;
    report(alloc, check.name, diagnostic, source)?.with_fix(alloc, fix)
}

// Renders a graphical report of all findings, with this fix.
fn render_diff(
    alloc: Global,
    check: &LintCheck<'_>,
    found: Vec<LabeledSpan>,
    source: Vec<u8>,
) -> Result<String, RenderError>
    ensures text { IfOk result (λ text. string_bytes text ≡ picture check.now.width
        (with_fix (combined_proposal source.items check.now.width)
        (over_input check.now.name.now (warning found.items) source.items))) }
    ensures accepted { ¬ (result ≡ Err RenderError.Refused) }
{
    let report: Report = report_with_fix(alloc, check, found, source)?;
    draw(alloc, &report, Some(check.width))
}

// Whether nothing was found.
fn is_clean(found: &Vec<LabeledSpan>) -> bool
    ensures { result ≡ is_nil found.now.items }
{
    found.as_slice().is_empty()
}

// Renders the findings in the requested form. To add a form, render its text here.
fn render(
    alloc: Global,
    check: &LintCheck<'_>,
    found: Vec<LabeledSpan>,
    source: Vec<u8>,
) -> Result<String, RenderError>
    ensures text { IfOk result (λ text. string_bytes text
        ≡ report_in (output_of check.now.output) check.now.name.now check.now.width source.items found.items) }
    ensures accepted { AreInBounds source.items found.items → ¬ (result ≡ Err RenderError.Refused) }
{
    match check.output {
        LintOutput::Sarif(tool) => render_log(alloc, check, tool, source),
        _ if is_clean(&found) => Ok(String::new(alloc)),
        LintOutput::Graphical | LintOutput::Fixed => render_picture(alloc, check, found, source),
        LintOutput::Brief => render_rows(alloc, check, found, source),
        LintOutput::Github => render_commands(alloc, check, source),
        LintOutput::Diff => render_diff(alloc, check, found, source),
    }
}

/// Returns whether nothing was found in a source, and the report of the findings. All its labels are in bounds.
///
/// # Errors
/// `Memory` if allocation fails.
pub(crate) fn report_on(
    alloc: Global,
    check: &LintCheck<'_>,
    source: Vec<u8>,
) -> Result<(bool, String), ProgramError>
    ensures clean { IfOk result (λ it. it.0 ≡ is_nil (findings_of source.items check.now.width)) }
    ensures text { IfOk result (λ it. string_bytes it.1 ≡ report_on (check_of check.now) source.items) }
    ensures others { OnErr result (result ≡ Err ProgramError.Memory) }
{
    let found = findings(alloc, source.as_slice(), check.width)?;
    let clean = is_clean(&found);
    match render(alloc, check, found, source) {
        Ok(text) => Ok((clean, text)),
        Err(RenderError::Memory) => Err(ProgramError::Memory),
        Err(RenderError::Refused) => Err(ProgramError::Refused),
    }
}
