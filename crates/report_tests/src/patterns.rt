//! Lines that rules highlight. `cases/programs.jsonl` has more of them.

use crate::comparing::same;
use miette_highlight::highlight::{Delimiters, Highlighter, Pattern, PatternHighlighter, Rule};
use miette_style::style::{Color, Style};

const PLAIN: Style = Style {
    fg: None,
    bold: false,
    dimmed: false,
    italic: false,
    underline: false,
};

const GREEN: Style = Style {
    fg: Some(Color::Green),
    ..PLAIN
};

const CYAN: Style = Style {
    fg: Some(Color::Cyan),
    ..PLAIN
};

/// A line, and the lengths of its pieces in bytes.
type Row = (&'static str, &'static [(usize, Style)]);

static LINES: [Row; 3] = [
    (
        "if iff xif é éé",
        &[
            (2, GREEN),
            (1, PLAIN),
            (3, CYAN),
            (1, PLAIN),
            (3, PLAIN),
            (1, PLAIN),
            (2, GREEN),
            (1, PLAIN),
            (4, PLAIN),
        ],
    ),
    // all through the first closing delimiter, and to the line's end where there is none
    (
        "<é, éé> <x <é>",
        &[
            (10, GREEN),
            (1, PLAIN),
            (1, PLAIN),
            (1, PLAIN),
            (1, PLAIN),
            (4, GREEN),
        ],
    ),
    ("", &[]),
];

/// The first matching rule wins. Two words are green, words from `a` to `i` are cyan, and text
/// between delimiters is green.
#[test]
fn the_first_rule_decides(rt: HostRuntime) {
    let alloc = rt.alloc();
    let words = Pattern::words(alloc, &["if", "é"]).expect(&rt, "memory");
    let delimiters = Delimiters::new(alloc, "<é", "é>").expect(&rt, "memory");
    let rules = vec![in alloc;
        Rule {
            pattern: words,
            style: GREEN,
        },
        Rule {
            pattern: Pattern::From(b'a', b'i'),
            style: CYAN,
        },
        Rule {
            pattern: Pattern::Between(delimiters),
            style: GREEN,
        },
    ]
    .expect(&rt, "memory");
    let mut highlighter = PatternHighlighter::new(rules);
    for (line, wanted) in &LINES {
        let pieces = highlighter
            .highlight_line(alloc, line)
            .expect(&rt, "memory");
        same(&rt, pieces.as_slice(), *wanted);
    }
}
