//! What each clause of `render_report` says. The report has a folded label, a line that is cut, a label at the end of
//! its source, and a cause.

ghost use Rattle.std.specs.Prelude.{◌≡◌, ◌++◌, ℕ, List, IfOk, Some, false, true, string_bytes};
ghost use Rattle.std.specs.List.{Contains};
ghost use Rattle.miette_graphical_rules.specs.laws.Alike.{AreDrawnAlike};
ghost use Rattle.miette_graphical_rules.specs.laws.Paths.{HasPath};
ghost use Rattle.miette_graphical_rules.specs.rules.Answers.{Answers};
ghost use Rattle.miette_graphical_rules.specs.rules.DiagnosticText.{Drawing};
ghost use Rattle.miette_graphical_rules.specs.rules.PrintedDiagnostics.{diagnostics_of};
ghost use Rattle.miette_graphical_rules.specs.rules.Text.{report_text};
ghost use Rattle.miette_graphical_rules.specs.views.HandlerState.{draws_plain, without_highlighter};
ghost use Rattle.miette_tree.specs.views.Report.{tree_of};
ghost use Rattle.callers.specs.Sums.{CauseStands, CauseStays, EndStandsAfter, IsLeftOut, LongIsCut, RowsStand};
ghost use Rattle.callers.specs.Sums.{NamesRows, depth_tree, narrow};
ghost use Rattle.callers.specs.Sums.{printed_cause, printed_sum, sum_tree};

use miette::diagnostic::MietteDiagnostic;
use miette::error::RenderError;
use miette::handlers::{GraphicalReportHandler, SetLayout};
use miette::protocol::Diagnostic;
use miette::report::{OwnedSource, Report};
use miette::source::SourceCode;
use miette::theme::GraphicalTheme;
use miette_graphical_laws::laws::{levels_law, paths_law, printed_law};
use miette_highlight::highlight::{BlankHighlighter, Highlighter};
use std::alloc::{AllocError, Global};

/// Returns the cause: a setting that is too large.
pub fn depth(alloc: Global) -> Result<Report, AllocError>
    ensures { IfOk result (λ r. tree_of ⟦<Box<dyn Diagnostic> as Diagnostic>⟧.meaning
        ⟦<Box<dyn SourceCode> as SourceCode>⟧.source r ≡ depth_tree) }
{
    let settings = "depth = 1\n".as_bytes().to_vec(alloc)?;
    let source = OwnedSource::named(alloc, "app.toml", None, settings)?;
    let diagnostic = MietteDiagnostic::new(alloc, "too deep")?;
    let labelled = diagnostic.and_label_at(alloc, (8, 1), "set here")?;
    Ok(Report::new(labelled).with_owned_source(source))
}

/// Returns a report of a call over six lines, and of a long line that lacks a term at its end.
pub fn sum(alloc: Global) -> Result<Report, AllocError>
    ensures { IfOk result (λ r. tree_of ⟦<Box<dyn Diagnostic> as Diagnostic>⟧.meaning
        ⟦<Box<dyn SourceCode> as SourceCode>⟧.source r ≡ sum_tree) }
{
    let code = "call(\n  one,\n  two,\n  three,\n  four,\n  five)\nlet total = one + two + three +"
        .as_bytes()
        .to_vec(alloc)?;
    let source = OwnedSource::named(alloc, "sum.x", None, code)?;
    let diagnostic = MietteDiagnostic::new(alloc, "no term")?
        .and_label_at(alloc, (0, 44), "a call")?
        .and_label_at(alloc, (49, 5), "the sum")?
        .and_label_at(alloc, (76, 0), "a term")?;
    let report = Report::new(diagnostic).with_owned_source(source);
    match report.with_diagnostic_cause(alloc, depth(alloc)?) {
        Ok(report) => Ok(report),
        Err(_) => Err(AllocError),
    }
}

/// Returns a handler that cuts lines after 12 columns, folds labels over more than two lines, and
/// draws labels at the end of the source.
pub fn narrow_handler<H: Highlighter>(
    alloc: Global,
) -> Result<GraphicalReportHandler<H>, AllocError>
    ensures { IfOk result (λ it. it ≡ without_highlighter narrow) }
{
    let theme = GraphicalTheme::unicode_nocolor(alloc)?;
    Ok(
        GraphicalReportHandler::themed(theme)
            .line_columns(12)
            .label_lines(2)
            .end_labels(true),
    )
}

/// Renders that report.
pub fn draw_sum(alloc: Global, report: &Report) -> Result<String, RenderError>
    requires { tree_of ⟦<Box<dyn Diagnostic> as Diagnostic>⟧.meaning
        ⟦<Box<dyn SourceCode> as SourceCode>⟧.source report.now ≡ sum_tree }
    // the text contains each row of its snippet on its own line, by `holds`
    ensures rows { IfOk result (λ text. RowsStand (string_bytes text)) }
    // and each row of the cause that fits, under the arrow, by `levels_law`
    ensures under { IfOk result (λ text. CauseStands (string_bytes text)) }
    // the long line is cut, the first line of the call isn't, by `cuts`
    ensures cut { IfOk result (λ text. LongIsCut) }
    // the cause is drawn as without a limit, by `fits`
    ensures cause { IfOk result (λ text. CauseStays) }
    // the label at the end is after the shown part of the long line, by `ends`
    ensures end { IfOk result (λ text. EndStandsAfter) }
    // the third and fourth lines are left out inside the call, by `folds`
    ensures folded { IfOk result (λ text. IsLeftOut) }
    // one row of each by its bytes, by `holds`, `levels_law` and computation
    ensures named { IfOk result (λ text. NamesRows (string_bytes text)) }
{
    levels_law();
    let mut handler: GraphicalReportHandler<BlankHighlighter> = narrow_handler(alloc)?;
    let mut text = String::new(alloc);
    handler.render_report(report, &mut text)?;
    Ok(text)
}

/// Appends that report with a highlighter of any kind. Returns whether it did.
pub fn add_sum<H: Highlighter>(
    out: &mut String,
    handler: &mut GraphicalReportHandler<H>,
    report: &Report,
) -> bool
    // if it isn't rendered, the text is as before, by `err`
    ensures none { result ≡ false → string_bytes out.new ≡ string_bytes out.old }
    // if it is, the old text stays in front, by `ok`
    ensures some { result ≡ true →
        (text : List ℕ) × (string_bytes out.new ≡ string_bytes out.old ++ text) }
    // the handler keeps its settings, and still leaves lines plain if it did before, by
    // `settings` and `blank`
    ensures settings { handler.new.settings ≡ handler.old.settings }
    ensures plain { draws_plain H.is_blank handler.new ≡ draws_plain H.is_blank handler.old }
{
    match handler.render_report(report, out) {
        Ok(()) => true,
        Err(_) => false,
    }
}

/// Renders that report. Allocation is the only error: the sources always read, by `refused`.
pub fn sum_or_memory(alloc: Global, report: &Report) -> Result<String, AllocError>
    requires { tree_of ⟦<Box<dyn Diagnostic> as Diagnostic>⟧.meaning
        ⟦<Box<dyn SourceCode> as SourceCode>⟧.source report.now ≡ sum_tree }
{
    let mut handler: GraphicalReportHandler<BlankHighlighter> = narrow_handler(alloc)?;
    let mut text = String::new(alloc);
    match handler.render_report(report, &mut text) {
        Ok(()) => Ok(text),
        Err(RenderError::Memory) => Err(AllocError),
        Err(RenderError::Refused) => unreachable!(),
    }
}

/// The cause is printed, because each diagnostic at a path is.
pub fn cause_is_printed()
    ensures printed { Contains (diagnostics_of narrow sum_tree) printed_cause }
    ensures path { HasPath narrow sum_tree printed_cause }
{
    paths_law();
}

/// The text has no other snippets: it depends only on how these two diagnostics are drawn.
pub fn no_others_are_drawn()
    ensures { (drawing other : Drawing) (a : Answers) → AreDrawnAlike drawing other printed_sum →
        AreDrawnAlike drawing other printed_cause →
        report_text drawing narrow sum_tree a ≡ report_text other narrow sum_tree a }
{
    printed_law();
}
