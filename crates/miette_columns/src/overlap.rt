//! The characters before a checkpoint that are read again.

/// The characters before a checkpoint that a walk from there begins with.
#[derive(Clone, Copy)]
pub(crate) enum Overlap {
    Nothing,
    One(char),
    /// an emoji, and U+FE0F after it
    Selected(char),
}
