//! A line that is drawn.

use crate::frame::Frame;
use miette_labels::placed::PlacedLabel;
use miette_lines::lines::LineOfText;
use miette_style::style::Style;

/// A line that is drawn, with its labels and what its rows are drawn with.
#[derive(Clone, Copy)]
pub struct LineContext<'a> {
    /// The frame of the snippet.
    pub frame: Frame<'a>,
    /// The width of the gutter in columns.
    pub gutter: usize,
    /// The one-based line number.
    pub number: usize,
    /// Where the line begins and ends.
    pub line: LineOfText,
    /// The bytes of its text.
    pub text: &'a [u8],
    /// The multi-line labels on the line, sorted by offset.
    pub multi: &'a [PlacedLabel<'a>],
    /// The one-line labels on the line, sorted by offset.
    pub one: &'a [PlacedLabel<'a>],
    /// The highlighter's pieces of the text, each a length in bytes and a style.
    pub pieces: &'a [(usize, Style)],
}
