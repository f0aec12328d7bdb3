//! Graphical reports of a diagnostic over an input.

ghost use Rattle.std.specs.Prelude.{◌≡◌, string_bytes, IfOk};
ghost use Rattle.miette_protocol.specs.views.Diagnostic.{meaning_of};
ghost use Rattle.miette_tree.specs.views.Report.{tree_of};
ghost use Rattle.miette_graphical_rules.specs.views.HandlerState.{without_highlighter};
ghost use Rattle.miette_style.specs.rules.Themes.{theme_of};
ghost use Rattle.miette_draw.specs.rules.Pictures.{over_input, settings_in, IsPicture};
ghost use Rattle.miette_draw.specs.rules.Pictures.{IsReadWhole};

use miette_graphical::handler::{GraphicalReportHandler, SetLayout};
use miette_protocol::diagnostic::MietteDiagnostic;
use miette_protocol::error::RenderError;
use miette_protocol::protocol::Diagnostic;
use miette_protocol::source::SourceCode;
use miette_style::theme::GraphicalTheme;
use miette_tree::report::{OwnedSource, Report};
use std::alloc::{AllocError, Global};

// Width of the output in columns.
const WIDTH: usize = 80;

/// Creates the report of a diagnostic over an input with this name, with an index of its lines.
///
/// # Errors
/// `AllocError` if allocation fails.
pub fn report<D: Diagnostic, S: SourceCode>(
    alloc: Global,
    name: &str,
    diagnostic: MietteDiagnostic,
    input: Vec<u8>,
) -> Result<Report<D, S>, AllocError>
    ensures { IfOk result (λ it. tree_of D.meaning S.source it
        ≡ over_input name.now (meaning_of diagnostic) input.items) }
{
    let source = OwnedSource::named(alloc, name, None, input)?;
    Ok(Report::built(diagnostic).with_owned_source(source))
}

// The handler with this theme. Source lines are cut at `limit` columns, if there is a limit.
fn drawing(theme: GraphicalTheme, limit: Option<usize>) -> GraphicalReportHandler
    ensures { result ≡ without_highlighter (settings_in (theme_of theme) limit) }
{
    let handler = GraphicalReportHandler::themed(theme).with_width(WIDTH);
    match limit {
        Some(columns) => handler.line_columns(columns),
        None => handler,
    }
}

/// Renders a graphical report without colors. Source lines are cut at `limit` columns, if there is a limit.
///
/// # Errors
/// `Memory` if allocation fails. `Refused` doesn't occur if all labels can be read.
pub fn draw<D: Diagnostic, S: SourceCode>(
    alloc: Global,
    report: &Report<D, S>,
    limit: Option<usize>,
) -> Result<String, RenderError>
    requires reads { IsReadWhole limit (tree_of D.meaning S.source report.now) }
    ensures ok { IfOk result (λ text. IsPicture limit (tree_of D.meaning S.source report.now) (string_bytes text)) }
    ensures accepted { ¬ (result ≡ Err RenderError.Refused) }
{
    let theme = match GraphicalTheme::unicode_nocolor(alloc) {
        Ok(theme) => theme,
        Err(_) => return Err(RenderError::Memory),
    };
    let mut text = String::new(alloc);
    let mut handler = drawing(theme, limit);
    handler.render_report(report, &mut text)?;
    Ok(text)
}

/// Renders the graphical report of a diagnostic over an input with this name, without colors. Source lines are cut at
/// `limit` columns, if there is a limit. `lint` prints this.
///
/// # Errors
/// `Memory` if allocation fails. The source always reads, so nothing else fails.
pub fn draw_diagnostic(
    alloc: Global,
    name: &str,
    diagnostic: MietteDiagnostic,
    input: Vec<u8>,
    limit: Option<usize>,
) -> Result<String, RenderError>
    ensures ok { IfOk result (λ text. IsPicture limit (over_input name.now (meaning_of diagnostic) input.items)
        (string_bytes text)) }
    ensures accepted { ¬ (result ≡ Err RenderError.Refused) }
{
    let report: Report = match report(alloc, name, diagnostic, input) {
        Ok(report) => report,
        Err(_) => return Err(RenderError::Memory),
    };
    draw(alloc, &report, limit)
}
