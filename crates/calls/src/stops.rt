//! Reports over sources that fail after each number of reads: `calls stops`.

use crate::examples::{HandlerKind, all_handlers, render_example};
use crate::fixtures::{Example, Label, M, Part, Source, WrittenDiagnostic};
use crate::rows::{ExitReason, RowResult, Rows};
use crate::stopping::Reads;
use std::alloc::Global;
use std::rc::Rc;

/// Returns whether a handler is tried. Handlers that differ in styles only read like the others.
fn is_tried(by: HandlerKind) -> bool {
    match by {
        HandlerKind::Highlighted
        | HandlerKind::Wanting
        | HandlerKind::NestedWanting
        | HandlerKind::ChosenWanting => false,
        HandlerKind::Graphical
        | HandlerKind::Nested
        | HandlerKind::Chosen
        | HandlerKind::ChosenNarrated
        | HandlerKind::Narrated
        | HandlerKind::Brief
        | HandlerKind::Github
        | HandlerKind::Json
        | HandlerKind::Debug => true,
    }
}

/// The most reads that are tried.
const MOST: usize = 99;

const NINE: &[u8] = b"1\n2\n3\n4\n5\n6\n7\n8\n9\n";

/// A message over nine lines.
const PLAIN: WrittenDiagnostic = WrittenDiagnostic {
    source: Source::FailingSource(NINE),
    ..M
};

const HERE: &[Label] = &[(8, 1, 0, "here")];

const ONE: WrittenDiagnostic = WrittenDiagnostic {
    labels: HERE,
    ..PLAIN
};

const TWO: WrittenDiagnostic = WrittenDiagnostic {
    labels: &[(4, 1, 0, "a"), (8, 1, 0, "b")],
    ..PLAIN
};

const APART: WrittenDiagnostic = WrittenDiagnostic {
    labels: &[(0, 1, 0, "a"), (16, 1, 0, "b")],
    ..PLAIN
};

/// The same without a source.
const APART_ALONE: WrittenDiagnostic = WrittenDiagnostic {
    source: Source::Missing,
    ..APART
};

const OWN: WrittenDiagnostic = WrittenDiagnostic {
    labels: &[(0, 1, 1, "a"), (4, 1, 2, "b"), (16, 1, 0, "c")],
    ..PLAIN
};

/// Enough lines that a graphical report asks the source for the line of a fix.
const MANY: WrittenDiagnostic = WrittenDiagnostic {
    source: Source::FailingSource(&[b'\n'; 1200]),
    ..M
};

/// Reports over a failing source, or with one in a cause or related report.
fn all_reports() -> &'static [Example] {
    &REPORTS
}

static REPORTS: [Example; 10] = [
    Example {
        name: "one label",
        first: ONE,
        parts: &[],
    },
    Example {
        name: "two labels",
        first: TWO,
        parts: &[],
    },
    Example {
        name: "labels far apart",
        first: APART,
        parts: &[],
    },
    Example {
        name: "own context",
        first: OWN,
        parts: &[],
    },
    Example {
        name: "no labels",
        first: PLAIN,
        parts: &[],
    },
    Example {
        name: "a related report",
        first: ONE,
        parts: &[Part::RelatedTo(M)],
    },
    Example {
        name: "a cause",
        first: ONE,
        parts: &[Part::CauseOf(APART_ALONE)],
    },
    Example {
        name: "a further source",
        first: M,
        parts: &[Part::Snippets(NINE, HERE)],
    },
    Example {
        name: "a fix",
        first: PLAIN,
        parts: &[Part::Fix(("five", 8, 1, "five"))],
    },
    Example {
        name: "a fix far down",
        first: MANY,
        parts: &[Part::Fix(("five", 1150, 0, "five"))],
    },
];

/// Prints a row for each handler, number of context lines and failing read. Later reads succeed in one row, and fail in
/// another. In the last row of each group no read fails.
///
/// # Errors
/// `Write` if writing to standard output fails.
pub fn rows(alloc: Global, rows: &mut Rows) -> RowResult {
    let reads = Reads::new(alloc)?;
    for report in all_reports() {
        for handler in all_handlers() {
            if is_tried(handler.1) {
                for lines in 0..3usize {
                    until_none_fails(alloc, rows, (report, *handler, lines), &reads, false)?;
                    until_none_fails(alloc, rows, (report, *handler, lines), &reads, true)?;
                }
            }
        }
    }
    Ok(())
}

/// A report, a handler and its name, and a number of context lines.
type Rendering<'a> = (&'a Example, (&'a str, HandlerKind), usize);

fn until_none_fails(
    alloc: Global,
    rows: &mut Rows,
    (report, (handler, by), lines): Rendering<'_>,
    reads: &Rc<Reads>,
    stays: bool,
) -> RowResult {
    let how = if stays { ", from" } else { ", at" };
    for fails_at in 1..MOST {
        reads.begin(fails_at, stays);
        rows.text(report.name);
        rows.text(", ");
        rows.text(handler);
        rows.part(", ", &lines);
        rows.text(how);
        rows.part(" ", &fails_at);
        let called = render_example(alloc, rows, report, (by, lines), reads);
        rows.end(called)?;
        if reads.count() < fails_at {
            return Ok(());
        }
    }
    Err(ExitReason::Usage)
}
