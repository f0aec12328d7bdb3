//! The outermost report, from its header to its footer.

ghost use Rattle.std.specs.Prelude.{◌≡◌, IfOk, OnOk, false};
ghost use Rattle.miette_snippet_rules.specs.rules.Highlighting.{follows, leaves_plain};
ghost use Rattle.miette_graphical_rules.specs.rules.PrintedDiagnostics.{labels_read, diagnostics_of};
ghost use Rattle.miette_graphical.specs.views.Painting.{KeepsPainter, Paints, printing, settings_of};
ghost use Rattle.miette_graphical_rules.specs.views.GraphicalSettings.{handler_settings};
ghost use Rattle.miette_graphical.specs.views.PartTexts.{AreRootCauses, IsOutermost};
ghost use Rattle.miette_graphical_rules.specs.steps.PrintedParts.{printed_root_causes};
ghost use Rattle.miette_tree.specs.views.Report.{tree_of};

use crate::diagnostic::push_header_and_message;
use crate::indents::push_footer;
use crate::painter::Painter;
use crate::report::{push_body_and_related, push_causes};
use miette_graphical_rules::settings::GraphicalSettings;
use miette_highlight::highlight::Highlighter;
use miette_protocol::error::RenderError;
use miette_protocol::protocol::Diagnostic;
use miette_protocol::source::SourceCode;
use miette_runs::runs::output::Output;
use miette_tree::report::Report;
use std::alloc::Global;

// Output is allocated for a report of this many bytes at first.
const SMALL: usize = 256;

/// Prints the causes of the outermost report, if they are shown.
fn push_root_causes<D: Diagnostic, S: SourceCode, H: Highlighter>(
    painter: &mut Painter<'_, H>,
    report: &Report<D, S>,
) -> Result<(), RenderError>
    ensures ok { OnOk result (Paints H.is_blank H.may_follow (AreRootCauses (tree_of D.meaning S.source report.now))
        painter.old painter.new) }
    ensures refused { (result ≡ Err RenderError.Refused) →
        labels_read (printed_root_causes (settings_of painter.old).cause_chain
        (settings_of painter.old).related_as_nested (tree_of D.meaning S.source report.now)) ≡ false }
    ensures keeps { KeepsPainter H.is_blank painter.old painter.new }
{
    if !painter.settings.cause_chain {
        return Ok(());
    }
    push_causes(painter, report.severity(), report.source_code(), report)
}

/// Prints the outermost report, from its header to its footer.
fn push_report<D: Diagnostic, S: SourceCode, H: Highlighter>(
    painter: &mut Painter<'_, H>,
    report: &Report<D, S>,
) -> Result<(), RenderError>
    ensures ok { OnOk result (Paints H.is_blank H.may_follow (IsOutermost (tree_of D.meaning S.source report.now))
        painter.old painter.new) }
    ensures refused { (result ≡ Err RenderError.Refused) →
        labels_read (diagnostics_of (settings_of painter.old) (tree_of D.meaning S.source report.now)) ≡ false }
    ensures keeps { KeepsPainter H.is_blank painter.old painter.new }
{
    painter.out.reserve(' ', SMALL)?;
    push_header_and_message(painter, report)?;
    push_root_causes(painter, report)?;
    push_body_and_related(painter, report.source_code(), report)?;
    push_footer(painter)?;
    Ok(())
}

/// Renders the outermost report, from its header to its footer.
pub fn render_output<D: Diagnostic, S: SourceCode, H: Highlighter>(
    alloc: Global,
    settings: &GraphicalSettings,
    highlighter: &mut Option<H>,
    report: &Report<D, S>,
) -> Result<Output, RenderError>
    ensures ok { IfOk result (λ o. IsOutermost (tree_of D.meaning S.source report.now)
        (printing (handler_settings settings.now) (leaves_plain H.is_blank highlighter.old)
        (follows H.may_follow highlighter.old) (follows H.may_follow highlighter.new)) o) }
    ensures refused { (result ≡ Err RenderError.Refused) →
        labels_read (diagnostics_of (handler_settings settings.now) (tree_of D.meaning S.source report.now)) ≡ false }
    ensures stays { leaves_plain H.is_blank highlighter.new ≡ leaves_plain H.is_blank highlighter.old }
{
    let mut painter = Painter {
        alloc,
        settings,
        width: settings.width,
        highlighter,
        out: Output::for_text(alloc),
    };
    let printed = push_report(&mut painter, report);
    let Painter {
        highlighter,
        out,
        ..
    } = painter;
    // The borrow of the highlighter ends.
    let _given_back = highlighter;
    printed?;
    Ok(out)
}
