//! Example reports by each handler: `calls report`, or `calls report NAME HANDLER` for one row.

use crate::fixtures::{Example, TestReport, report_over};
use crate::rows::{CallResult, RowResult, Rows};
use crate::stopping::{Reads, Red};
use crate::themes::terminal;
use crate::worked::{TABLES, table};
use miette::handlers::{
    BriefForm, BriefReportHandler, DebugReportHandler, GraphicalReportHandler, JSONReportHandler,
    NarratableReportHandler, ReportHandler,
};
use miette::options::{MietteHandler, MietteHandlerOpts};
use miette::theme::GraphicalTheme;
use std::alloc::{AllocError, Global};
use std::rc::Rc;

/// A handler.
#[derive(Clone, Copy)]
pub enum HandlerKind {
    Graphical,
    Nested,
    Highlighted,
    Chosen,
    Wanting,
    NestedWanting,
    ChosenWanting,
    ChosenNarrated,
    Narrated,
    Brief,
    Github,
    Json,
    Debug,
}

/// The handlers.
pub fn all_handlers() -> &'static [(&'static str, HandlerKind)] {
    &HANDLERS
}

static HANDLERS: [(&str, HandlerKind); 13] = [
    ("graphical", HandlerKind::Graphical),
    ("nested", HandlerKind::Nested),
    ("highlighted", HandlerKind::Highlighted),
    ("chosen", HandlerKind::Chosen),
    ("wanting", HandlerKind::Wanting),
    ("nested wanting", HandlerKind::NestedWanting),
    ("chosen wanting", HandlerKind::ChosenWanting),
    ("chosen narrated", HandlerKind::ChosenNarrated),
    ("narrated", HandlerKind::Narrated),
    ("brief", HandlerKind::Brief),
    ("github", HandlerKind::Github),
    ("json", HandlerKind::Json),
    ("debug", HandlerKind::Debug),
];

/// Prints the rows of one report, of one handler, or of all. For a source that fails, the first read does.
///
/// # Errors
/// `Write` if writing to standard output fails.
pub fn rows_of(alloc: Global, rows: &mut Rows, name: &str, handler: &str) -> RowResult {
    let reads = Reads::new(alloc)?;
    for number in 0..TABLES {
        for example in table(number) {
            if is_asked(name, example.name) {
                rows_by(alloc, rows, example, handler, &reads)?;
            }
        }
    }
    Ok(())
}

/// Prints the rows of a report.
fn rows_by(
    alloc: Global,
    rows: &mut Rows,
    example: &Example,
    handler: &str,
    reads: &Rc<Reads>,
) -> RowResult {
    for by in all_handlers() {
        if is_asked(handler, by.0) {
            reads.begin(1, false);
            row_by(alloc, rows, example, *by, reads)?;
        }
    }
    Ok(())
}

/// Returns whether a name is asked for. An empty word asks for every name.
fn is_asked(word: &str, name: &str) -> bool {
    word.is_empty() || word == name
}

/// Prints the row of a report by a handler.
fn row_by(
    alloc: Global,
    row: &mut Rows,
    example: &Example,
    (handler, by): (&str, HandlerKind),
    reads: &Rc<Reads>,
) -> RowResult {
    row.text(example.name);
    row.text(", ");
    row.text(handler);
    let called = render_example(alloc, row, example, (by, 1), reads);
    row.end(called)
}

/// Appends the report by a handler with this number of context lines to the text `> `.
///
/// # Errors
/// If allocating the report or the handler fails.
pub fn render_example(
    alloc: Global,
    row: &mut Rows,
    example: &Example,
    (by, lines): (HandlerKind, usize),
    reads: &Rc<Reads>,
) -> CallResult {
    let report = report_over(alloc, &example.first, example.parts, reads)?;
    tell(alloc, row, by, &report, lines)
}

/// The same for a report that is there already.
///
/// # Errors
/// If allocating the handler fails.
pub fn tell(
    alloc: Global,
    row: &mut Rows,
    by: HandlerKind,
    report: &TestReport,
    lines: usize,
) -> CallResult {
    match by {
        HandlerKind::Narrated => {
            let telling = NarratableReportHandler::new().with_context_lines(lines);
            render_by(alloc, row, Ok(telling), report)
        }
        HandlerKind::Brief => render_by(alloc, row, Ok(BriefReportHandler::new()), report),
        HandlerKind::Github => {
            let telling = BriefReportHandler::new().with_form(BriefForm::Github);
            render_by(alloc, row, Ok(telling), report)
        }
        HandlerKind::Json => render_by(alloc, row, Ok(JSONReportHandler::new()), report),
        HandlerKind::Debug => render_by(alloc, row, Ok(DebugReportHandler::new()), report),
        HandlerKind::Graphical => render_by(alloc, row, plain_drawing(alloc, lines), report),
        HandlerKind::Chosen | HandlerKind::ChosenWanting | HandlerKind::ChosenNarrated => {
            render_by(alloc, row, chosen(alloc, by, lines), report)
        }
        _ => render_by(alloc, row, drawing(alloc, by, lines), report),
    }
}

/// Returns a highlighter for all lines, or for one line before allocation fails.
fn red_of(by: HandlerKind) -> Red {
    match by {
        HandlerKind::Wanting | HandlerKind::NestedWanting | HandlerKind::ChosenWanting => Red(2),
        _ => Red(usize::MAX),
    }
}

/// Returns a graphical handler with colors and without a highlighter.
///
/// # Errors
/// If allocation fails.
pub fn plain_drawing(
    alloc: Global,
    lines: usize,
) -> Result<GraphicalReportHandler<Red>, AllocError> {
    let theme = GraphicalTheme::unicode(alloc)?;
    let drawing: GraphicalReportHandler<Red> = GraphicalReportHandler::themed(theme);
    Ok(drawing.with_width(40).with_context_lines(lines))
}

fn drawing(
    alloc: Global,
    by: HandlerKind,
    lines: usize,
) -> Result<GraphicalReportHandler<Red>, AllocError> {
    Ok(
        plain_drawing(alloc, lines)?
            .with_width(30)
            .with_show_related_as_nested(matches!(
                by,
                HandlerKind::Nested | HandlerKind::NestedWanting
            ))
            .with_syntax_highlighting(red_of(by)),
    )
}

fn chosen(alloc: Global, by: HandlerKind, lines: usize) -> Result<MietteHandler<Red>, AllocError> {
    let terminal = terminal(alloc)?;
    let options: MietteHandlerOpts<Red> = MietteHandlerOpts::default();
    options
        .width(30)
        .force_narrated(matches!(by, HandlerKind::ChosenNarrated))
        .context_lines(lines)
        .with_syntax_highlighting(red_of(by))
        .build(alloc, &terminal)
}

/// Appends the output of a handler to the text `> `.
///
/// # Errors
/// If allocating the handler or the text fails.
pub fn render_by<H: ReportHandler + Drop>(
    alloc: Global,
    row: &mut Rows,
    handler: Result<H, AllocError>,
    report: &TestReport,
) -> CallResult {
    let mut handler = handler?;
    let mut text = String::from_str(alloc, "> ")?;
    row.value(&text);
    let answer = handler.debug(report, &mut text);
    row.appended(answer, &text);
    Ok(())
}
