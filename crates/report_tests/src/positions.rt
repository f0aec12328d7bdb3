//! Positions of small sources, counted by hand.

use crate::comparing::same;
use miette_positions::position::{Position, PositionEncoding, Region};
use miette_positions::spans::{clamped_offset, region_of, span_of};
use miette_protocol::protocol::SourceSpan;

/// Tabs, an emoji of four bytes, `é` of two, an LF, a CRLF, a lone CR and a byte that is no UTF-8; no LF at the end.
const MIXED: &[u8] = b"\ta\xF0\x9F\x98\x80b\nc\xC3\xA9\r\nd\re\xFFf";

type Numbers = (usize, usize, usize, usize);

fn numbers(region: Region) -> Numbers {
    (
        region.start.line,
        region.start.column,
        region.end.line,
        region.end.column,
    )
}

fn region(numbers: Numbers) -> Region {
    Region {
        start: Position {
            line: numbers.0,
            column: numbers.1,
        },
        end: Position {
            line: numbers.2,
            column: numbers.3,
        },
    }
}

fn found(source: &[u8], encoding: PositionEncoding, span: (usize, usize)) -> Option<Numbers> {
    match region_of(SourceSpan::from(span), source, encoding) {
        Some(region) => Some(numbers(region)),
        None => None,
    }
}

/// Positions as editors count them.
const UTF16: PositionEncoding = PositionEncoding::Utf16;

/// Sources with spans and their regions.
type Row = (
    &'static [u8],
    PositionEncoding,
    (usize, usize),
    Option<Numbers>,
);

static ROWS: [Row; 30] = [
    (MIXED, UTF16, (0, 1), Some((0, 0, 0, 1))),
    (MIXED, UTF16, (2, 4), Some((0, 2, 0, 4))),
    (MIXED, UTF16, (6, 1), Some((0, 4, 0, 5))),
    // part of the emoji becomes all of it
    (MIXED, UTF16, (3, 1), Some((0, 2, 0, 4))),
    // an empty span inside the emoji becomes one before it
    (MIXED, UTF16, (3, 0), Some((0, 2, 0, 2))),
    (MIXED, UTF16, (7, 1), Some((0, 5, 1, 0))),
    (MIXED, UTF16, (9, 2), Some((1, 1, 1, 2))),
    // up to the CR, the CR alone, and the LF alone
    (MIXED, UTF16, (8, 3), Some((1, 0, 1, 2))),
    (MIXED, UTF16, (11, 1), Some((1, 2, 2, 0))),
    (MIXED, UTF16, (12, 1), Some((1, 2, 2, 0))),
    (MIXED, UTF16, (12, 0), Some((1, 2, 1, 2))),
    (MIXED, UTF16, (13, 1), Some((2, 0, 2, 1))),
    (MIXED, UTF16, (14, 1), Some((2, 1, 3, 0))),
    (MIXED, UTF16, (16, 1), Some((3, 1, 3, 2))),
    (MIXED, UTF16, (17, 1), Some((3, 2, 3, 3))),
    (MIXED, UTF16, (18, 1), Some((3, 3, 3, 3))),
    (MIXED, UTF16, (18, 2), None),
    (MIXED, UTF16, (19, 0), None),
    // in other units
    (MIXED, PositionEncoding::Utf8, (2, 5), Some((0, 2, 0, 7))),
    (MIXED, PositionEncoding::Utf32, (2, 5), Some((0, 2, 0, 4))),
    (MIXED, PositionEncoding::Utf8, (9, 2), Some((1, 1, 1, 3))),
    (MIXED, PositionEncoding::Utf32, (9, 2), Some((1, 1, 1, 2))),
    (MIXED, PositionEncoding::Utf8, (15, 3), Some((3, 0, 3, 3))),
    // ends of sources, and after them
    (b"", UTF16, (0, 0), Some((0, 0, 0, 0))),
    (b"", UTF16, (0, 1), Some((0, 0, 0, 0))),
    (b"a\n", UTF16, (2, 0), Some((1, 0, 1, 0))),
    (b"a\r", UTF16, (0, 3), Some((0, 0, 1, 0))),
    (b"\r\n", UTF16, (1, 1), Some((0, 0, 1, 0))),
    (b"\n\r", UTF16, (1, 1), Some((1, 0, 2, 0))),
    // a byte order mark
    (b"\xEF\xBB\xBFx", UTF16, (3, 1), Some((0, 1, 0, 2))),
];

fn spanned(numbers: Numbers) -> Option<(usize, usize)> {
    match span_of(region(numbers), MIXED, UTF16) {
        Some(span) => Some((span.offset(), span.len())),
        None => None,
    }
}

/// Regions and their spans, in UTF-16 code units.
static REGIONS: [(Numbers, Option<(usize, usize)>); 8] = [
    ((0, 2, 0, 4), Some((2, 4))),
    ((0, 5, 1, 0), Some((7, 1))),
    ((1, 2, 2, 0), Some((11, 2))),
    ((3, 3, 3, 3), Some((18, 0))),
    // inside the emoji, after a line's text, on a missing line, and with the end before the start
    ((0, 3, 0, 4), None),
    ((0, 2, 0, 6), None),
    ((1, 0, 4, 0), None),
    ((1, 1, 1, 0), None),
];

/// Positions, and the offsets that they are clamped to.
static CLAMPED: [(Position, usize); 6] = [
    (Position { line: 0, column: 3 }, 2),
    (
        Position {
            line: 0,
            column: 99,
        },
        7,
    ),
    (
        Position {
            line: 1,
            column: 99,
        },
        11,
    ),
    (Position { line: 2, column: 1 }, 14),
    (
        Position {
            line: 3,
            column: 99,
        },
        18,
    ),
    (Position { line: 9, column: 0 }, 18),
];

#[test]
fn regions_spans_and_offsets(rt: HostRuntime) {
    for (source, encoding, span, wanted) in &ROWS {
        same(&rt, found(*source, *encoding, *span), *wanted);
    }
    for (numbers, wanted) in &REGIONS {
        same(&rt, spanned(*numbers), *wanted);
    }
    for (position, wanted) in &CLAMPED {
        same(&rt, clamped_offset(*position, MIXED, UTF16), *wanted);
    }
}
