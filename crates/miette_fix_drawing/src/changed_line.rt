//! A removed or an added line.

use miette_protocol::protocol::SourceSpan;
use miette_style::style::Style;

/// A removed or added line: its sign and style, its one-based number, its offset, its bytes with the terminator, and
/// the spans that edits delete or insert in its text.
#[derive(Clone, Copy)]
pub(crate) struct ChangedLine<'a> {
    pub(crate) sign: char,
    pub(crate) style: Style,
    pub(crate) number: usize,
    pub(crate) start: usize,
    pub(crate) text: &'a [u8],
    pub(crate) spans: &'a [SourceSpan],
}
