//! What the contract of `render_report` says about one report.

ghost use Rattle.std.specs.Prelude.{◌≡◌, IfOk, string_bytes, encode_utf8_all};
ghost use Rattle.miette_graphical_rules.specs.laws.HeldRows.{StartsRowIn};
ghost use Rattle.miette_graphical_rules.specs.rules.Answers.{unlisted};
ghost use Rattle.miette_graphical_rules.specs.rules.Snippets.{whole_drawing};
ghost use Rattle.miette_graphical_rules.specs.rules.Text.{report_text};
ghost use Rattle.miette_runs.specs.rules.Sequences.{erase};
ghost use Rattle.miette_tree.specs.views.Report.{tree_of};
ghost use Rattle.callers.specs.Known.{HasOwnMark, ShowsBothLines, TextHangs, host_row, plain};
ghost use Rattle.callers.specs.Known.{warning_tree};

use miette::diagnostic::MietteDiagnostic;
use miette::error::RenderError;
use miette::protocol::Diagnostic;
use miette::report::{OwnedSource, Report};
use miette::source::SourceCode;
use miette::theme::GraphicalTheme;
use miette_graphical_laws::laws::{
    number_rows_law, only_law, plain_law, shown_lines_law, themes_law,
};
use miette_handlers::handlers::{GraphicalReportHandler, ReportHandler};
use std::alloc::{AllocError, Global};

/// A report with colors, and without.
#[derive(Drop)]
pub struct Pictures {
    /// In the terminal's colors.
    pub coloured: String,
    /// The same without colors.
    pub plain: String,
}

/// Returns a warning about the second of two settings.
pub fn warning(alloc: Global) -> Result<Report, AllocError>
    ensures { IfOk result (λ r. tree_of ⟦<Box<dyn Diagnostic> as Diagnostic>⟧.meaning
        ⟦<Box<dyn SourceCode> as SourceCode>⟧.source r ≡ warning_tree) }
{
    let settings = "port = 80\nhost = x\n".as_bytes().to_vec(alloc)?;
    let source = OwnedSource::named(alloc, "app.toml", None, settings)?;
    let diagnostic = MietteDiagnostic::new(alloc, "no such host")?;
    let labelled = diagnostic.and_label_at(alloc, (17, 1), "this name")?;
    Ok(Report::new(labelled).with_owned_source(source))
}

/// Renders that warning in both styles.
pub fn draw_both(alloc: Global, report: &Report) -> Result<Pictures, RenderError>
    requires { tree_of ⟦<Box<dyn Diagnostic> as Diagnostic>⟧.meaning
        ⟦<Box<dyn SourceCode> as SourceCode>⟧.source report.now ≡ warning_tree }
    // the plain one is the text of the definition,
    ensures plain { IfOk result (λ p. string_bytes p.plain
        ≡ encode_utf8_all (report_text whole_drawing plain warning_tree unlisted)) }
    // and so is the colored one without its colors
    ensures colours { IfOk result (λ p. erase (string_bytes p.coloured) ≡ string_bytes p.plain) }
    // one row is the second line with its number, by `lines`, `holds` and the theorems on rows
    ensures row { IfOk result (λ p. StartsRowIn host_row (string_bytes p.plain)) }
    // the snippet shows both lines, with the label's underline at the column of the name, and its
    // text connected to it
    ensures lines { IfOk result (λ p. ShowsBothLines plain) }
    ensures marks { IfOk result (λ p. HasOwnMark plain) }
    ensures texts { IfOk result (λ p. TextHangs plain) }
{
    themes_law();
    plain_law();
    shown_lines_law();
    number_rows_law();
    let mut coloured = String::new(alloc);
    {
        let mut handler = GraphicalReportHandler::new_themed(GraphicalTheme::unicode(alloc)?);
        handler.render_report(report, &mut coloured)?;
    }
    let mut plain = String::new(alloc);
    let mut handler = GraphicalReportHandler::new_themed(GraphicalTheme::unicode_nocolor(alloc)?);
    handler.render_report(report, &mut plain)?;
    Ok(Pictures { coloured, plain })
}

/// Renders the plain report by the method that every handler has.
pub fn debug_plain(alloc: Global, report: &Report) -> Result<String, RenderError>
    requires { tree_of ⟦<Box<dyn Diagnostic> as Diagnostic>⟧.meaning
        ⟦<Box<dyn SourceCode> as SourceCode>⟧.source report.now ≡ warning_tree }
    ensures { IfOk result (λ text. string_bytes text
        ≡ encode_utf8_all (report_text whole_drawing plain warning_tree unlisted)) }
{
    only_law();
    let mut text = String::new(alloc);
    let mut handler = GraphicalReportHandler::new_themed(GraphicalTheme::unicode_nocolor(alloc)?);
    handler.debug(report, &mut text)?;
    Ok(text)
}
