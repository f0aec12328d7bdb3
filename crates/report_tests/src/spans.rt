//! Spans by line and column.

use crate::comparing::same;
use miette_protocol::protocol::{LabeledSpan, SourceOffset, SourceSpan};
use std::alloc::{AllocError, Global};

const LINES: &str = "f\n\noo\r\nbar";

const README: &str = "source\n  text\n    here";

/// A text, a line and a column, and the offset.
static LOCATIONS: [(&str, usize, usize, usize); 12] = [
    (LINES, 1, 1, 0),
    (LINES, 1, 2, 1),
    (LINES, 2, 1, 2),
    (LINES, 3, 1, 3),
    (LINES, 3, 4, 6),
    (LINES, 4, 1, 7),
    (LINES, 4, 4, 10),
    (LINES, 5, 1, 10),
    (README, 2, 3, 9),
    (README, 1, 8, 21),
    (README, 9, 9, 22),
    ("漢x", 1, 2, 3),
];

/// A text that isn't JSON.
const NO_VALUE: &str = "{\n  \"é\": x\n}";

/// A line, a column and a length, and the span.
static SPANS: [((usize, usize, usize), (usize, usize)); 3] = [
    ((2, 3, 3), (4, 3)),
    ((2, 8, 1), (10, 1)),
    ((9, 1, 2), (13, 2)),
];

/// Returns a label where the JSON parser stopped. Its columns count bytes, so they are added to
/// the line's offset.
fn json_label(
    alloc: Global,
    text: &str,
    error: &serde_json::Error,
) -> Result<LabeledSpan, AllocError> {
    let line = SourceSpan::at_line_column(text, error.line(), 1, 0);
    let before = error.column().saturating_sub(1);
    let why = format!(in alloc; "{error}")?;
    LabeledSpan::at(
        alloc,
        (line.offset().saturating_add(before), 1),
        why.as_str(),
    )
}

/// Texts that aren't JSON, and the offsets of their labels.
static NO_JSON: [(&str, usize); 3] = [(NO_VALUE, 10), ("{\n  \"a\": ", 8), ("[1,\n", 4)];

#[test]
fn locations_and_spans(rt: HostRuntime) {
    for (text, line, column, wanted) in &LOCATIONS {
        let found = SourceOffset::from_location(text, *line, *column);
        same(&rt, found.offset(), *wanted);
    }
    for ((line, column, length), wanted) in &SPANS {
        let span = SourceSpan::at_line_column(NO_VALUE, *line, *column, *length);
        same(&rt, (span.offset(), span.len()), *wanted);
    }
}

#[test]
fn where_json_ends(rt: HostRuntime) {
    let alloc = rt.alloc();
    for (text, wanted) in &NO_JSON {
        let error = serde_json::Value::from_str(alloc, text).expect_err(&rt, "no JSON");
        let label = json_label(alloc, text, &error).expect(&rt, "memory");
        same(&rt, label.offset(), *wanted);
    }
}
