//! The underline of a one-line label.

use miette_labels::placed::PlacedLabel;

/// The underline (`──┬──`) of a one-line label.
#[derive(Clone, Copy, Debug, PartialEq, Eq, Drop)]
pub struct Underline<'a> {
    /// The first column, zero-based from the start of the line's text.
    pub from: usize,
    /// The column after the last one.
    pub until: usize,
    /// The column of the pointer (`┬`), from which the connector leads to the label text.
    pub pointer: usize,
    /// The label.
    pub label: PlacedLabel<'a>,
}
