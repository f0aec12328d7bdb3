//! Options for wrapping texts and runs.

ghost use Rattle.std.specs.Prelude.{◌≡◌};
ghost use Rattle.miette_text.specs.views.Plans.{cuts_hyphens};

use miette_runs::runs::Runs;

/// Where words are separated.
#[derive(Clone, Copy, Debug, PartialEq, Eq)]
pub enum WordSeparator {
    /// After each run of spaces (U+0020).
    AsciiSpace,
    /// Where Unicode allows a line break, except after `-` and the soft hyphen.
    UnicodeBreakProperties,
}

/// Where words may be split.
#[derive(Clone, Copy, Debug, PartialEq, Eq)]
pub enum WordSplitter {
    /// Nowhere.
    NoHyphenation,
    /// After each `-` between two ASCII letters or digits.
    HyphenSplitter,
}

/// Options for wrapping a text.
#[derive(Clone, Copy)]
pub struct WrapOptions<'a> {
    /// The width of a line in columns, including its indent.
    pub width: usize,
    /// The indent of the first line.
    pub initial_indent: &'a str,
    /// The indent of the other lines.
    pub subsequent_indent: &'a str,
    /// Whether words that are wider than a line are broken.
    pub break_words: bool,
    /// Whether lines are wrapped. If not, each line of the text is kept whole under its indent.
    pub wrap_lines: bool,
    /// Where words are separated.
    pub separator: WordSeparator,
    /// Where words may be split.
    pub splitter: WordSplitter,
}

/// Options for wrapping runs.
#[derive(Clone, Copy)]
pub struct WrapPlan<'a> {
    /// Whether lines are wrapped. If not, each line of the text is kept whole under its indent.
    pub wrap_lines: bool,
    /// Where words are separated.
    pub separator: WordSeparator,
    /// Whether words may be split after hyphens.
    pub split_hyphens: bool,
    /// Whether words that are wider than a line are broken.
    pub break_words: bool,
    /// The width of a line in columns, including its indent.
    pub width: usize,
    /// The indent of the first line.
    pub first: &'a Runs,
    /// The indent of the other lines.
    pub further: &'a Runs,
}

/// Whether the splitter splits words after hyphens.
pub fn cuts_hyphens(splitter: WordSplitter) -> bool
    ensures { result ≡ cuts_hyphens splitter }
{
    match splitter {
        WordSplitter::NoHyphenation => false,
        WordSplitter::HyphenSplitter => true,
    }
}
