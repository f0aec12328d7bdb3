//! Labels that are ready for drawing.

use miette_style::style::Style;

/// A label up to its drawn end, with its style and text.
#[derive(Clone, Copy, Debug, PartialEq, Eq, Drop)]
pub struct PlacedLabel<'a> {
    /// The offset of its first byte in the source.
    pub start: usize,
    /// The offset of its drawn end: its own end, or the end of its read's contents if that is earlier.
    pub after: usize,
    /// The style it is drawn with.
    pub style: Style,
    /// Its text, if it has one.
    pub text: Option<&'a str>,
    /// Whether it is drawn after the text of its line.
    pub after_text: bool,
}
