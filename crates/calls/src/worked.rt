//! The example reports by name.

use crate::fixtures::{Example, Label, M, Part, Source, WrittenDiagnostic, WrittenFix};
use crate::sources::README;
use miette::protocol::Severity;

const OOPS: WrittenDiagnostic = WrittenDiagnostic {
    message: "oops!",
    code: "oops::my::bad",
    url: "http://x",
    help: "try doing it better next time?",
    labels: &[(9, 4, 0, "This bit here")],
    source: Source::Owned("bad_file.rs", README),
    ..M
};

const LINES: &[u8] = b"a\nb\nc\nd\n";

const OVER_LINES: &[Label] = &[(0, 5, 0, "x"), (2, 5, 0, "y\nand z")];

const CROSSING: WrittenDiagnostic = WrittenDiagnostic {
    labels: OVER_LINES,
    source: Source::Owned("", LINES),
    ..M
};

const LINKED: WrittenDiagnostic = WrittenDiagnostic {
    message: "in-ner text here",
    code: "c::d",
    url: "http://a-b/ c",
    help: "try it",
    ..M
};

const WARNING: WrittenDiagnostic = WrittenDiagnostic {
    message: "rel",
    severity: Some(Severity::Warning),
    ..M
};

const ON_ONE_LINE: WrittenDiagnostic = WrittenDiagnostic {
    labels: &[(1, 3, 0, "a"), (2, 3, 0, "b")],
    source: Source::Owned("", b"abcdef"),
    ..M
};

const WIDE: WrittenDiagnostic = WrittenDiagnostic {
    labels: &[
        (4, 4, 0, "wider than 4 columns"),
        (7, 1, 0, "no final terminator"),
    ],
    source: Source::Owned("", b"a\xe6\xbc\xa2\xe6\xbc\xa2b"),
    ..M
};

const TABS: WrittenDiagnostic = WrittenDiagnostic {
    labels: &[(5, 1, 0, "blank"), (8, 1, 0, "tab")],
    source: Source::Owned("", b"x = 1 \n \ty\nend"),
    ..M
};

const NINE_LINES: Source = Source::Owned("", b"1\n2\n3\n4\n5\n6\n7\n8\n9\n");

const OWN: WrittenDiagnostic = WrittenDiagnostic {
    labels: &[(0, 1, 1, ""), (8, 1, 0, "here"), (16, 1, 2, "")],
    source: NINE_LINES,
    ..M
};

const MANY: WrittenDiagnostic = WrittenDiagnostic {
    labels: &[
        (0, 1, 0, "a"),
        (1, 1, 0, ""),
        (2, 3, 0, "c"),
        (3, 3, 0, "d"),
        (6, 0, 0, "e"),
        (8, 1, 0, "f"),
        (8, 9, 0, "g"),
        (10, 1, 0, ""),
        (12, 4, 0, "i"),
        (16, 1, 0, "j"),
    ],
    source: NINE_LINES,
    ..M
};

const REFUSED: WrittenDiagnostic = WrittenDiagnostic {
    labels: &[(9, 1, 0, "far off"), (0, 1, 0, "here")],
    source: Source::Owned("", b"a"),
    ..M
};

const STOPPING: WrittenDiagnostic = WrittenDiagnostic {
    source: Source::FailingSource(README),
    ..OOPS
};

const TEXTS: &[&str] = &["first", "se-cond\nin two lines", "third"];

/// A fix that replaces a word.
const LONGER: WrittenFix = ("a longer word", 9, 4, "a text");

/// A fix past the end of the source.
const FAR_OFF: WrittenFix = ("far off", 99, 1, "");

/// The number of tables.
pub const TABLES: usize = 5;

/// Returns a table of reports. For a source that fails, the first read does. Several tables are proved faster than one
/// long one.
pub fn table(number: usize) -> &'static [Example] {
    match number {
        0 => &FIRST,
        1 => &SECOND,
        2 => &THIRD,
        3 => &FOURTH,
        _ => &FIFTH,
    }
}

static FIRST: [Example; 4] = [
    Example {
        name: "one label",
        first: OOPS,
        parts: &[],
    },
    Example {
        name: "labels on one line",
        first: ON_ONE_LINE,
        parts: &[],
    },
    Example {
        name: "wide characters",
        first: WIDE,
        parts: &[],
    },
    Example {
        name: "tabs",
        first: TABS,
        parts: &[],
    },
];

static SECOND: [Example; 4] = [
    Example {
        name: "lines that cross",
        first: CROSSING,
        parts: &[],
    },
    Example {
        name: "own context",
        first: OWN,
        parts: &[],
    },
    Example {
        name: "many labels",
        first: MANY,
        parts: &[],
    },
    Example {
        name: "a linked cause",
        first: LINKED,
        parts: &[Part::CauseOf(M)],
    },
];

static THIRD: [Example; 3] = [
    Example {
        name: "causes with sources",
        first: CROSSING,
        parts: &[Part::CauseOf(OOPS), Part::CauseOf(M)],
    },
    Example {
        name: "texts",
        first: M,
        parts: &[Part::CauseTexts(TEXTS)],
    },
    Example {
        name: "related reports",
        first: M,
        parts: &[Part::Related(&[WARNING, OOPS])],
    },
];

static FOURTH: [Example; 3] = [
    Example {
        name: "related reports in one another",
        first: M,
        parts: &[Part::Related(&[WARNING, OOPS]), Part::RelatedTo(CROSSING)],
    },
    Example {
        name: "a refused label",
        first: REFUSED,
        parts: &[],
    },
    Example {
        name: "labels over two sources",
        first: OOPS,
        parts: &[Part::OwnedSnippets(LINES, OVER_LINES)],
    },
];

static FIFTH: [Example; 3] = [
    Example {
        name: "fixes",
        first: OOPS,
        parts: &[Part::Fix(LONGER), Part::Fix(FAR_OFF)],
    },
    Example {
        name: "fixes of a cause",
        first: OOPS,
        parts: &[
            Part::Fix(LONGER),
            Part::Fix(FAR_OFF),
            Part::CauseOf(M),
            Part::Fix(LONGER),
        ],
    },
    Example {
        name: "a cause over a source that stops",
        first: STOPPING,
        parts: &[Part::CauseOf(M)],
    },
];
