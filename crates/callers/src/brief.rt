//! Brief reports in a build log.

ghost use Rattle.std.specs.Prelude.{IfOk, string_bytes, true};
ghost use Rattle.miette_brief.specs.laws.Parts.{HasEachPart};
ghost use Rattle.miette_tree.specs.views.Report.{tree_of};

use miette_brief::handler::BriefReportHandler;
use miette_brief::laws::each_part_has_one_brief_row;
use miette_protocol::error::RenderError;
use miette_protocol::protocol::Diagnostic;
use miette_protocol::source::SourceCode;
use miette_tree::report::Report;
use std::alloc::Global;

/// Renders a brief report: one complete line for each part.
pub fn log_rows<D: Diagnostic, S: SourceCode>(
    alloc: Global,
    report: &Report<D, S>,
) -> Result<String, RenderError>
    ensures { IfOk result (λ rows.
        HasEachPart true (tree_of D.meaning S.source report.now) (string_bytes rows)) }
{
    each_part_has_one_brief_row();
    let mut rows = String::new(alloc);
    BriefReportHandler::new().render(report, &mut rows)?;
    Ok(rows)
}
