//! Positions in a diff.

/// A position in a diff: how many lines and bytes of the source and of the applied text come before it.
#[derive(Clone, Copy, Debug, PartialEq, Eq, Drop)]
pub struct DiffPosition {
    /// Lines of the source.
    pub old_line: usize,
    /// Lines of the applied text.
    pub new_line: usize,
    /// Bytes of the source.
    pub old_offset: usize,
    /// Bytes of the applied text.
    pub new_offset: usize,
}
