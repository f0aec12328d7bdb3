//! The part of a report between its causes and its related reports.

ghost use Rattle.std.specs.Prelude.{◌≡◌, OnOk, false};
ghost use Rattle.miette_graphical_rules.specs.rules.Sources.{sources_of, sources_read};
ghost use Rattle.miette_graphical.specs.views.PartTexts.{IsDiagnosticBody};
ghost use Rattle.miette_graphical.specs.views.Painting.{KeepsPainter, Paints, opt_ref_source};
ghost use Rattle.miette_tree.specs.rules.Tree.{head};
ghost use Rattle.miette_tree.specs.views.Report.{tree_of};

use crate::fixes::push_fixes;
use crate::indents::push_help;
use crate::painter::Painter;
use crate::sources::push_rows;
use miette_highlight::highlight::Highlighter;
use miette_protocol::error::RenderError;
use miette_protocol::protocol::Diagnostic;
use miette_protocol::source::SourceCode;
use miette_tree::report::{Report, SourceRef};

/// Prints a diagnostic's snippets over its sources, its help and its fixes.
pub(crate) fn push_body<D: Diagnostic, S: SourceCode, H: Highlighter>(
    painter: &mut Painter<'_, H>,
    source: Option<SourceRef<'_, S>>,
    report: &Report<D, S>,
) -> Result<(), RenderError>
    ensures ok { OnOk result (Paints H.is_blank H.may_follow (IsDiagnosticBody (opt_ref_source S.source source.entry)
        (head (tree_of D.meaning S.source report.now))) painter.old painter.new) }
    ensures refused { (result ≡ Err RenderError.Refused) → sources_read (sources_of
        (opt_ref_source S.source source.entry) (head (tree_of D.meaning S.source report.now))) ≡ false }
    ensures keeps { KeepsPainter H.is_blank painter.old painter.new }
{
    push_rows(painter, source, report)?;
    push_help(painter, report.help())?;
    push_fixes(painter, source, report.fixes())?;
    Ok(())
}
