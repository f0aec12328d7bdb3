//! Several reports in one log.

ghost use Rattle.std.specs.Prelude.{◌≡◌, None, IfOk};
ghost use Rattle.callers.specs.Logged.{both_rows};

use miette::handlers::BriefReportHandler;
use miette::print::Outputs;
use miette::report::Report;
use miette::reporter::{Form, Reporter};
use miette_brief::laws::brief_report_has_one_text;
use std::alloc::{AllocError, Global};

/// A session that writes brief reports to a log.
pub type Log = Reporter<BriefReportHandler, Vec<u8>, Vec<u8>>;

/// Returns a log of two reports, which has nothing but their lines. If one can't be rendered, the
/// session says why.
pub fn failed_twice(alloc: Global) -> Result<Log, AllocError>
    ensures { IfOk result (λ log. log.failure ≡ None → log.outputs.writer.items ≡ both_rows) }
{
    brief_report_has_one_text();
    let full: Report = Report::msg(alloc, "the disk is full")?;
    let host: Report = Report::msg(alloc, "no such host")?;
    let outputs = Outputs::new(Vec::new(alloc), Vec::new(alloc));
    let mut log = Reporter::with_handler(alloc, BriefReportHandler::new(), Form::Brief, outputs);
    log.report_each(&[full, host]);
    Ok(log)
}
