//! Reads of bytes. By the clause of `SourceCode::read_span`, all other sources read the same.

use crate::comparing::same;
use miette_protocol::protocol::SourceSpan;
use miette_protocol::source::SourceCode;

const README: &[u8] = b"source\n  text\n    here";

/// The result of a read: data, offset, length, line, column and number of lines.
type Parts<'a> = (&'a [u8], (usize, usize), usize, usize, usize);

/// A source, the offset and length of a span, context lines before and after, and the result.
/// `None` if the span is out of bounds.
type Row = (&'static [u8], (usize, usize), usize, Option<Parts<'static>>);

const MOST: usize = usize::MAX;

static ROWS: [Row; 13] = [
    (README, (9, 4), 0, Some((b"text", (9, 4), 1, 2, 0))),
    (README, (9, 4), 1, Some((README, (0, 22), 0, 0, 2))),
    (README, (22, 1), 0, Some((b"", (22, 0), 2, 8, 0))),
    (README, (22, 2), 0, None),
    (README, (23, 0), 0, None),
    // an empty source accepts one byte
    (b"", (0, 1), 1, Some((b"", (0, 0), 0, 0, 0))),
    (b"", (1, 1), 1, None),
    // context is whole lines, and terminators are read whole
    (
        b"a\nb\nc\nd",
        (0, 2),
        1,
        Some((b"a\nb\nc\n", (0, 6), 0, 0, 3)),
    ),
    (
        b"foo\r\nbar",
        (0, 4),
        0,
        Some((b"foo\r\n", (0, 5), 0, 0, 1)),
    ),
    (b"\nx", (0, 0), 0, Some((b"\n", (0, 1), 0, 0, 1))),
    // sums past the largest number are errors or are clamped, and nothing wraps around
    (README, (MOST, MOST), 0, None),
    (README, (1, MOST), 0, None),
    (README, (9, 4), MOST, Some((README, (0, 22), 0, 0, 2))),
];

/// Returns the result of a read, or `None` if it fails.
fn read(row: &'static Row) -> Option<Parts<'static>> {
    let Ok(contents) = row.0.read_span(&SourceSpan::from(row.1), row.2, row.2) else {
        return None;
    };
    let span = contents.span();
    Some((
        contents.data(),
        (span.offset(), span.len()),
        contents.line(),
        contents.column(),
        contents.line_count(),
    ))
}

#[test]
fn bytes_are_read(rt: HostRuntime) {
    for row in &ROWS {
        same(&rt, read(row), row.3);
    }
}
