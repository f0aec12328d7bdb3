//! The text of one source line.

/// The text of a line, without its terminator.
#[derive(Clone, Copy)]
pub struct LineText<'a> {
    /// The offset of the first byte in the source.
    pub start: usize,
    /// The bytes of the text.
    pub bytes: &'a [u8],
    /// The tab width in columns.
    pub tab: usize,
}
