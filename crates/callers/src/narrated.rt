//! A narrated report.

ghost use Rattle.std.specs.Prelude.{◌≡◌, IfOk, string_bytes, true};
ghost use Rattle.miette_narrated.specs.rules.Report.{default_narration_settings, narration, unlisted};
ghost use Rattle.miette_narrated.specs.rules.PossibleAnswers.{fixes_read};
ghost use Rattle.miette_tree.specs.rules.Reads.{report_reads};
ghost use Rattle.miette_tree.specs.views.Report.{tree_of};

use miette_narrated::handler::NarratableReportHandler;
use miette_protocol::error::RenderError;
use miette_protocol::protocol::Diagnostic;
use miette_protocol::source::SourceCode;
use miette_tree::report::Report;
use std::alloc::Global;

/// Renders a narrated report. If the sources always read, there is exactly one such text.
pub fn narrated<D: Diagnostic, S: SourceCode>(
    alloc: Global,
    report: &Report<D, S>,
) -> Result<String, RenderError>
    ensures { IfOk result (λ text.
        report_reads (tree_of D.meaning S.source report.now) ≡ true →
        fixes_read (tree_of D.meaning S.source report.now) ≡ true → string_bytes text
        ≡ narration default_narration_settings (tree_of D.meaning S.source report.now) unlisted) }
{
    let mut text = String::new(alloc);
    NarratableReportHandler::new().render(report, &mut text)?;
    Ok(text)
}
