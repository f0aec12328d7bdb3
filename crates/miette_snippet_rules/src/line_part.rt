//! The parts of a cut line, by their numbers of cells, columns and bytes.

/// The parts of a line, or `None` if the line isn't cut.
pub type LineCut = Option<Vec<LinePart>>;

/// Consecutive cells of a line that are all shown or all left out.
#[derive(Clone, Copy, Debug, PartialEq, Eq, Drop)]
pub struct LinePart {
    /// Whether the cells are shown.
    pub shown: bool,
    /// The number of cells.
    pub cells: usize,
    /// Their width in columns.
    pub columns: usize,
    /// Their length in bytes of the text.
    pub bytes: usize,
}
