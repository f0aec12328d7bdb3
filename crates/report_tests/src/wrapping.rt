//! Wrapped texts. `cases/made/job-separator.jsonl` has a help text in Japanese with both separators. A
//! clause of `push_if_fits` says which texts fit on one line.

use crate::comparing::gives;
use miette_text::wrap::{WordSeparator, WordSplitter, WrapOptions, fill};
use std::alloc::{AllocError, Global};

/// Without indents. Words break after hyphens, and wherever they are too wide.
const PLAIN: WrapOptions<'static> = WrapOptions {
    width: 80,
    initial_indent: "",
    subsequent_indent: "",
    break_words: true,
    wrap_lines: true,
    separator: WordSeparator::AsciiSpace,
    splitter: WordSplitter::HyphenSplitter,
};

/// With indents.
const INDENTED: WrapOptions<'static> = WrapOptions {
    initial_indent: "> ",
    subsequent_indent: ". ",
    ..PLAIN
};

const WITHOUT_HYPHENS: WrapOptions<'static> = WrapOptions {
    splitter: WordSplitter::NoHyphenation,
    ..PLAIN
};

const WHOLE: WrapOptions<'static> = WrapOptions {
    wrap_lines: false,
    ..INDENTED
};

const UNDER_SIGNS: WrapOptions<'static> = WrapOptions {
    initial_indent: "  \u{1B}[31m×\u{1B}[0m ",
    subsequent_indent: "  | ",
    ..PLAIN
};

const BY_UNICODE: WrapOptions<'static> = WrapOptions {
    break_words: false,
    separator: WordSeparator::UnicodeBreakProperties,
    ..PLAIN
};

const WHOLE_UNDER_SIGNS: WrapOptions<'static> = WrapOptions {
    initial_indent: "|\u{1B}[31m \u{1B}[0m ",
    subsequent_indent: ". ",
    wrap_lines: false,
    ..PLAIN
};

/// A text, the width in columns, and the lines.
type Row = (&'static str, usize, &'static str);

/// Options, and the lines that they make.
static TABLES: [(WrapOptions<'static>, &[Row]); 9] = [
    // texts with escape sequences
    (
        PLAIN,
        &[
            ("aa \u{1B}[31m bb", 3, "aa\u{1B}[31m\nbb"),
            ("\u{1B}[31mred \u{1B}[0mx", 4, "\u{1B}[31mred\n\u{1B}[0mx"),
            ("a-\u{1B}[31mb\u{1B}[0m", 2, "a-\n\u{1B}[31mb\u{1B}[0m"),
            ("\u{1B}[31mab \u{1B}[0m", 5, "\u{1B}[31mab\u{1B}[0m"),
            ("\u{1B}[31mabcd\u{1B}[0m", 2, "\u{1B}[31mab\ncd\u{1B}[0m"),
        ],
    ),
    (
        PLAIN,
        &[("ab-cd ef", 5, "ab-cd\nef"), ("ab-cd ef", 4, "ab-\ncd\nef")],
    ),
    (WITHOUT_HYPHENS, &[("ab-cd ef", 4, "ab-c\nd ef")]),
    // a blank line loses the trailing spaces of its indent, and sequences after the last line
    // feed stay
    (
        WHOLE,
        &[
            ("a\n\n", 80, "> a\n.\n"),
            ("\u{A0}\t\na\n\u{1B}[0m", 80, ">\u{A0}\t\n. a\n\u{1B}[0m"),
        ],
    ),
    (
        UNDER_SIGNS,
        &[(
            "alpha 漢字 é\n",
            10,
            "  \u{1B}[31m×\u{1B}[0m alpha\n  | 漢字 é\n  | ",
        )],
    ),
    // with wrapping, an indent keeps its spaces, also on an empty line
    (
        INDENTED,
        &[
            ("", 80, "> "),
            ("a\n\nb", 80, "> a\n. \n. b"),
            ("   a", 4, "> \n. a"),
            ("ab c", 1, "> a\n. b\n. c"),
            ("a b", usize::MAX, "> a b"),
        ],
    ),
    (
        PLAIN,
        &[
            ("漢a", 0, "漢\na"),
            ("漢\u{301}", 1, "漢\n\u{301}"),
            ("\u{301}漢", 1, "\u{301}漢"),
        ],
    ),
    (
        BY_UNICODE,
        &[
            // no break before a closing mark or after an opening one, even with spaces there
            ("漢字。", 2, "漢\n字。"),
            ("「漢字」", 2, "「漢\n字」"),
            ("a ( b ) c", 1, "a\n( b )\nc"),
            // no break before a combining mark or inside a flag
            ("漢か\u{3099}字", 2, "漢\nか\u{3099}\n字"),
            ("🇩🇪🇫🇷", 1, "🇩🇪\n🇫🇷"),
            // a number keeps its sign, and there is no break after its hyphen
            ("漢-5字", 1, "漢-5\n字"),
            ("漢-字", 1, "漢-字"),
            ("a- b", 1, "a-\nb"),
            // a line separator is an ordinary break opportunity and ends no line
            ("a\u{2028}b", 80, "a\u{2028}b"),
            ("a\u{2028}b", 1, "a\u{2028}\nb"),
            // a sequence isn't a break opportunity, and goes with the next word
            ("ab\u{1B}[31mcd\u{1B}[0m", 2, "ab\u{1B}[31mcd\u{1B}[0m"),
            ("漢\u{1B}[31m字\u{1B}[0m", 2, "漢\n\u{1B}[31m字\u{1B}[0m"),
        ],
    ),
    // without wrapping: no text, sequences only, and white space under an indent with sequences
    // among its spaces
    (
        WHOLE_UNDER_SIGNS,
        &[
            ("", 80, ""),
            ("\u{1B}[31m\u{1B}[0m", 80, "\u{1B}[31m\u{1B}[0m"),
            ("\t", 80, "|\u{1B}[31m\u{1B}[0m\t"),
            ("a\n\t", 80, "|\u{1B}[31m \u{1B}[0m a\n.\t"),
        ],
    ),
];

/// Returns the wrapped text.
fn filled(
    alloc: Global,
    options: &WrapOptions<'_>,
    (text, width): (&str, usize),
) -> Result<String, AllocError> {
    let options = WrapOptions { width, ..*options };
    let mut out = String::new(alloc);
    fill(text, &options, &mut out)?;
    Ok(out)
}

#[test]
fn texts_are_filled(rt: HostRuntime) {
    for (options, rows) in &TABLES {
        for (text, width, wanted) in *rows {
            gives(&rt, filled(rt.alloc(), options, (*text, *width)), *wanted);
        }
    }
}
