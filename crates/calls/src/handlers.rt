//! Calls of handlers.

use crate::diagnostics::{ALL_PARTS, CAUSES};
use crate::examples::{HandlerKind, plain_drawing, render_by, tell};
use crate::fixtures::{M, Source, TestReport, WrittenDiagnostic, report_with, source_of};
use crate::reports::full_report;
use crate::rows::{CallResult, Rows};
use crate::sources::README;
use crate::stopping::Red;
use crate::themes::terminal;
use miette::error::RenderError;
use miette::handlers::{
    BriefReportHandler, DebugReportHandler, GraphicalReportHandler, JSONReportHandler,
    NarratableReportHandler, ReportHandler,
};
use miette::highlight::BlankHighlighter;
use miette::options::{MietteHandler, MietteHandlerOpts};
use miette::report::Report;
use std::alloc::{AllocError, Global};

/// The calls of this module.
#[derive(Clone, Copy)]
pub enum HandlerCall {
    NewGraphical,
    RenderGraphical,
    ReportNarrated,
    RenderNarrated,
    NarratedClones,
    ReportBrief,
    RenderBrief,
    ReportJson,
    ReportDebug,
    Display,
    Build,
    NewChosen,
    DebugChosen,
    Debug(HandlerKind),
}

/// A report over two texts.
static OVER_README: WrittenDiagnostic = WrittenDiagnostic {
    source: Source::Owned("bad_file.rs", README),
    ..ALL_PARTS
};

/// A message that wraps on a narrow terminal.
static WORDS: WrittenDiagnostic = WrittenDiagnostic {
    message: "one two three four five",
    ..M
};

fn report_over_readme(alloc: Global) -> Result<TestReport, AllocError> {
    report_with(alloc, &OVER_README, &CAUSES)
}

fn report_of_words(alloc: Global) -> Result<TestReport, AllocError> {
    report_with(alloc, &WORDS, &[])
}

/// Makes a call and prints its row.
///
/// # Errors
/// If allocating the call's arguments fails.
pub fn make(alloc: Global, call: HandlerCall, row: &mut Rows) -> CallResult {
    match call {
        HandlerCall::NarratedClones => {
            let footer = String::from_str(alloc, "bye")?;
            row.clones(Ok(NarratableReportHandler::new().with_footer(footer)))
        }
        HandlerCall::NewGraphical | HandlerCall::Build | HandlerCall::NewChosen => {
            choose(alloc, call, row, &report_of_words(alloc)?)
        }
        HandlerCall::Debug(_) | HandlerCall::DebugChosen => {
            debug(alloc, call, row, &report_over_readme(alloc)?)
        }
        _ => render(alloc, call, row, &report_with_source(alloc)?),
    }
}

/// Appends the output of `debug` to the text `> `.
fn debug(alloc: Global, call: HandlerCall, row: &mut Rows, report: &TestReport) -> CallResult {
    match call {
        HandlerCall::Debug(by) => tell(alloc, row, by, report, 1),
        _ => render_by(alloc, row, drawing(alloc), report),
    }
}

fn drawing(alloc: Global) -> Result<MietteHandler<Red>, AllocError> {
    Ok(MietteHandler::Graphical(plain_drawing(alloc, 1)?))
}

/// Returns the same report over boxes.
fn report_with_source(alloc: Global) -> Result<Report, AllocError> {
    let source = source_of(alloc, "bad_file.rs", README)?;
    Ok(full_report(alloc)?.with_owned_source(source))
}

/// Appends the output of a handler's own method to the text `> `.
fn render(alloc: Global, call: HandlerCall, row: &mut Rows, report: &Report) -> CallResult {
    let mut text = String::from_str(alloc, "> ")?;
    row.value(&text);
    let answer = render_to(alloc, call, report, &mut text);
    row.appended(answer, &text);
    Ok(())
}

/// Returns the call's result.
fn render_to(
    alloc: Global,
    call: HandlerCall,
    report: &Report,
    text: &mut String,
) -> Result<(), RenderError> {
    match call {
        HandlerCall::RenderGraphical => {
            let mut drawing = plain_drawing(alloc, 1)?;
            let answer = drawing.render_report(report, text);
            drop(drawing);
            answer
        }
        HandlerCall::ReportNarrated => NarratableReportHandler::new().render_report(report, text),
        HandlerCall::RenderNarrated => NarratableReportHandler::new().render(report, text),
        HandlerCall::ReportBrief => BriefReportHandler::new().render_report(report, text),
        HandlerCall::RenderBrief => BriefReportHandler::new().render(report, text),
        HandlerCall::ReportJson => JSONReportHandler::new().render_report(report, text),
        HandlerCall::Display => DebugReportHandler::new().display(report, true, text),
        _ => DebugReportHandler::new().render_report(report, text),
    }
}

/// Prints the handler for a terminal, and its output for a report.
fn choose(alloc: Global, call: HandlerCall, row: &mut Rows, report: &TestReport) -> CallResult {
    let terminal = terminal(alloc)?;
    row.value(&terminal);
    match call {
        HandlerCall::NewGraphical => {
            picture(
                alloc,
                row,
                GraphicalReportHandler::new(alloc, &terminal),
                report,
            )
        }
        HandlerCall::NewChosen => picture(alloc, row, MietteHandler::new(alloc, &terminal), report),
        _ => {
            let options: MietteHandlerOpts<BlankHighlighter> = MietteHandlerOpts::default();
            let built = options.width(20).build(alloc, &terminal);
            picture(alloc, row, built, report)
        }
    }
    Ok(())
}

/// Prints the output of a handler for a report without a source.
fn picture<H: ReportHandler + Drop>(
    alloc: Global,
    row: &mut Rows,
    answer: Result<H, AllocError>,
    report: &TestReport,
) {
    match answer {
        Ok(mut handler) => {
            let mut text = String::new(alloc);
            match handler.debug(report, &mut text) {
                Ok(()) => row.value(&text),
                Err(_) => row.refused(),
            }
        }
        Err(AllocError) => row.refused(),
    }
}
