//! What the contract of `render_report` says about a fix.

ghost use Rattle.std.specs.Prelude.{◌≡◌, IfOk, string_bytes};
ghost use Rattle.miette_tree.specs.views.Report.{tree_of};
ghost use Rattle.callers.specs.Mended.{FixStands, TellsColon, colon_tree};

use miette::error::RenderError;
use miette::handlers::GraphicalReportHandler;
use miette::protocol::Diagnostic;
use miette::report::{OwnedSource, Report};
use miette::source::SourceCode;
use miette::theme::GraphicalTheme;
use miette_fixes::fix::{Edit, Fix};
use std::alloc::{AllocError, Global};

/// Returns a report of a line without its colon, with a fix that inserts one.
pub fn no_colon(alloc: Global) -> Result<Report, AllocError>
    ensures { IfOk result (λ r. tree_of ⟦<Box<dyn Diagnostic> as Diagnostic>⟧.meaning
        ⟦<Box<dyn SourceCode> as SourceCode>⟧.source r ≡ colon_tree) }
{
    let code = "def f(x):\n  if x\n    return 1\n"
        .as_bytes()
        .to_vec(alloc)?;
    let source = OwnedSource::named(alloc, "f.py", None, code)?;
    let report = Report::msg(alloc, "no colon")?.with_owned_source(source);
    let edit = Edit::insert(16, String::from_str(alloc, ":")?);
    let fix = Fix::new(alloc, "a colon is missing")?.with_edit(edit)?;
    report.with_fix(alloc, fix)
}

/// Renders that report.
pub fn draw_fix(alloc: Global, report: &Report) -> Result<String, RenderError>
    requires { tree_of ⟦<Box<dyn Diagnostic> as Diagnostic>⟧.meaning
        ⟦<Box<dyn SourceCode> as SourceCode>⟧.source report.now ≡ colon_tree }
    // the fix is in the text, by `holds`
    ensures stands { IfOk result (λ text. FixStands (string_bytes text)) }
    // its rows leave out unchanged lines only, by `fixes`
    ensures lines { IfOk result (λ text. TellsColon) }
{
    let mut text = String::new(alloc);
    let mut handler = GraphicalReportHandler::new_themed(GraphicalTheme::unicode_nocolor(alloc)?);
    handler.render_report(report, &mut text)?;
    Ok(text)
}
