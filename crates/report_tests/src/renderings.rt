//! A small report, and how to test its output.

use crate::comparing::same;
use miette::diagnostic::MietteDiagnostic;
use miette::handlers::GraphicalReportHandler;
use miette::protocol::LabeledSpan;
use miette::report::{OwnedSource, Report};
use std::alloc::{AllocError, Global};
use std::process::Abort;

/// Returns a report with the message `m` and a label of one byte over the source `ab`.
pub(crate) fn over_ab(alloc: Global, offset: usize) -> Result<Report, AllocError> {
    let source = OwnedSource::new(alloc, b"ab".to_vec(alloc)?)?;
    let label = LabeledSpan::new(None, offset, 1);
    let diagnostic = MietteDiagnostic::new(alloc, "m")?.with_label(alloc, label)?;
    Ok(Report::new(diagnostic).with_owned_source(source))
}

/// Asserts that the handler renders the report as this text.
pub(crate) fn draws(
    rt: &impl Abort,
    alloc: Global,
    mut handler: GraphicalReportHandler,
    report: &Report,
    wanted: &str,
) {
    let mut text = String::new(alloc);
    let drawn = handler.render_report(report, &mut text);
    drop(handler);
    same(rt, (drawn, text.as_str()), (Ok(()), wanted));
}
