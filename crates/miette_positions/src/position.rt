//! Positions, regions, and how columns are counted.

/// The code units in which columns are counted, named as in the Language Server Protocol.
#[derive(Clone, Copy, Debug, PartialEq, Eq, Drop)]
pub enum PositionEncoding {
    /// Bytes of the source.
    Utf8,
    /// UTF-16 code units: two for a character past U+FFFF, else one.
    Utf16,
    /// Characters.
    Utf32,
}

/// A position in a source: a line and a column in code units, both zero-based.
#[derive(Clone, Copy, Debug, PartialEq, Eq, Drop)]
pub struct Position {
    /// The number of lines that end before it.
    pub line: usize,
    /// The number of code units of the line's text before it.
    pub column: usize,
}

/// A region of a source, from a position up to another one, which is excluded.
#[derive(Clone, Copy, Debug, PartialEq, Eq, Drop)]
pub struct Region {
    /// The first position.
    pub start: Position,
    /// The position after the last one.
    pub end: Position,
}

/// A place where a source can be cut: a character boundary within a line's text, including its ends, as offset and
/// position.
#[derive(Clone, Copy, Debug, PartialEq, Eq, Drop)]
pub struct Stop {
    /// The offset in bytes.
    pub offset: usize,
    /// The position of that offset.
    pub position: Position,
}

/// A part of a source between two stops.
#[derive(Clone, Copy, Debug, PartialEq, Eq, Drop)]
pub struct Stretch {
    /// The first stop.
    pub start: Stop,
    /// The last stop.
    pub end: Stop,
}
