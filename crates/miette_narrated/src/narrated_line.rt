//! A line of a snippet.

use miette_lines::lines::LineOfText;

/// A line of a snippet.
#[derive(Clone, Copy)]
pub(crate) struct NarratedLine<'a> {
    pub(crate) line: LineOfText,
    pub(crate) number: usize,
    pub(crate) is_last: bool,
    pub(crate) data_end: usize,
    pub(crate) text: &'a [u8],
}
