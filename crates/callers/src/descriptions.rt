//! A report from a JSON description.

ghost use Rattle.std.specs.Prelude.{◌≡◌, IfSome, string_bytes};
ghost use Rattle.miette_brief.specs.rules.Report.{brief, default_brief_settings, unlisted};
ghost use Rattle.miette_description.specs.rules.Description.{tree_of_bytes};

use miette_brief::handler::BriefReportHandler;
use miette_description::report::report_from_json;
use miette_tree::report::Report;
use std::alloc::Global;

/// Renders a brief report of a description. Returns `None` if the description is invalid, the
/// report is refused, or allocation fails.
pub fn described_rows(alloc: Global, description: &[u8]) -> Option<String>
    ensures { IfSome result (λ rows. IfSome (tree_of_bytes description.now) (λ tree.
        string_bytes rows ≡ brief default_brief_settings tree unlisted)) }
{
    let report: Report = report_from_json(alloc, description).ok()?;
    let mut rows = String::new(alloc);
    BriefReportHandler::new()
        .render_report(&report, &mut rows)
        .ok()?;
    Some(rows)
}
