//! The public highlighter types.

pub use crate::characters::style_each_char;
pub use crate::highlighter::{BlankHighlighter, Highlighter, pieces_law};
pub use crate::patterns::{
    Delimiters, Delimiters as Marks, OpenPart, Pattern, PatternHighlighter, Rule,
};
