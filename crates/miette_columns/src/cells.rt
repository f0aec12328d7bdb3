//! Walks over the characters of a line's text, with their bytes and columns.

ghost use Rattle.std.specs.Prelude.{◌≡◌, ◌<◌, ◌≤◌, ◌+◌, ◌-◌, ◌%◌, ◌^◌, List, [], ◌∷◌, length, false, IfOk};
ghost use Rattle.std.specs.Prelude.{MatchOption};
ghost use Rattle.bstr.specs.Utf8.{decoded, or_replacement};
ghost use Rattle.miette_columns.specs.views.Walking.{cell_of, ComeFirst};
ghost use Rattle.miette_columns.specs.rules.Widths.{width_of};
ghost use Rattle.miette_columns.specs.rules.Cells.{width_at};
ghost use Rattle.miette_columns.specs.rules.Cells.{Cell as TextCell, cells_from, characters, is_hidden, hides_next};

use crate::plain::plain_len;
use miette_lines::sums::sum;
use std::alloc::AllocError;
use std::marker::Model;
use unicode_width::UnicodeWidthChar;

/// A character of a line's text, with its byte range in the source and its columns. Columns count from the start of the
/// text. A tab is a cell that prints as spaces.
#[derive(Clone, Copy, Debug, PartialEq, Eq, Drop)]
pub struct Cell {
    /// The character; U+FFFD for invalid bytes.
    pub code: char,
    /// The offset of its first byte in the source.
    pub start: usize,
    /// The offset after its last byte.
    pub after: usize,
    /// Its first column, zero-based.
    pub from: usize,
    /// The column after its last one; equal to `from` if it has no width.
    pub until: usize,
}

/// Consecutive cells of printable ASCII. Each is one byte and one column.
#[derive(Clone, Copy, Debug, PartialEq, Eq, Drop)]
pub struct PlainCells {
    /// The offset of the first cell in the source.
    pub start: usize,
    /// The first column, zero-based.
    pub from: usize,
    /// The number of cells.
    pub many: usize,
}

/// An iterator over the cells of a line's text.
#[derive(Drop)]
pub struct CellWalk<'a> {
    rest: &'a [u8],
    tab: usize,
    hidden: bool,
    offset: usize,
    column: usize,
}

impl<'a> Model for CellWalk<'a> {
    ghost Value = { List TextCell };

    ghost view = { λ w. cells_from width_of w.tab w.hidden w.offset w.column (characters w.rest.now) };

    ghost invariant = { λ w. w.offset + length w.rest.now < 2 ^ 64 };
}

/// Returns the width of a character in columns, or 0.
#[inline(always)]
pub fn char_width(character: char) -> usize
    ensures { result ≡ width_of character }
{
    character.width().unwrap_or(0)
}

// Whether a character has no width because it is, or follows, an ESC.
fn hides(hidden: bool, character: char) -> bool
    ensures { result ≡ is_hidden hidden character }
{
    hidden || character == '\u{1b}'
}

// Whether the next character has no width.
fn hides_later(hidden: bool, character: char) -> bool
    ensures { result ≡ hides_next hidden character }
{
    hides(hidden, character) && character != 'm'
}

// Returns the width of a character at `column`, given its width `columns` outside of this text.
#[inline(always)]
fn width_there(tab: usize, hidden: bool, column: usize, character: char, columns: usize) -> usize
    requires { columns ≡ width_of character }
    ensures { result ≡ width_at width_of tab hidden column character }
{
    if hides(hidden, character) {
        0
    } else if character == '\t' {
        if tab == 0 { 0 } else { tab - column % tab }
    } else {
        columns
    }
}

/// Returns the first character of some bytes, and its length in bytes. Invalid UTF-8 gives U+FFFD.
#[inline(always)]
pub fn decode_first_char(bytes: &[u8]) -> (char, usize)
    requires { 0 < length bytes.now }
    ensures code { result.0 ≡ or_replacement (decoded bytes.now).char }
    ensures size { result.1 ≡ (decoded bytes.now).size }
    ensures some { 0 < result.1 }
    ensures within { result.1 ≤ length bytes.now }
{
    bstr::decode_lossy(bytes)
}

// Returns the width of an ASCII character.
#[inline(always)]
fn ascii_columns(byte: u8) -> usize
    requires { byte < 128 }
    ensures { result ≡ width_of byte }
{
    if byte < 0x20 {
        return 0;
    }
    if byte < 0x7f {
        return 1;
    }
    0
}

// Returns the first character of some bytes, its length in bytes and its width. ASCII takes a fast path in the caller's
// loop.
#[inline(always)]
fn measured(bytes: &[u8]) -> (char, usize, usize)
    requires { 0 < length bytes.now }
    ensures code { result.0 ≡ or_replacement (decoded bytes.now).char }
    ensures size { result.1 ≡ (decoded bytes.now).size }
    ensures some { 0 < result.1 }
    ensures within { result.1 ≤ length bytes.now }
    ensures columns { result.2 ≡ width_of result.0 }
{
    let first = bytes[0];
    if first < 0x80 {
        return (char::from(first), 1, ascii_columns(first));
    }
    let (code, size) = decode_first_char(bytes);
    (code, size, char_width(code))
}

impl<'a> CellWalk<'a> {
    /// Creates an iterator over a text that begins at an offset of the source, with tabs of `tab` columns.
    pub fn new(text: &'a [u8], offset: usize, tab: usize) -> Self
        requires { offset + length text.now < 2 ^ 64 }
        ensures { result ≡ cells_from width_of tab false offset 0 (characters text.now) }
    {
        Self::from_column(text, offset, 0, tab)
    }

    /// Like `new`, for a text that begins at a column.
    pub fn from_column(text: &'a [u8], offset: usize, column: usize, tab: usize) -> Self
        requires { offset + length text.now < 2 ^ 64 }
        ensures { result ≡ cells_from width_of tab false offset column (characters text.now) }
    {
        CellWalk {
            rest: text,
            tab,
            hidden: false,
            offset,
            column,
        }
    }

    /// Returns a copy at the same position.
    pub fn copy(&self) -> Self
        ensures { result ≡ self.now }
    {
        CellWalk {
            rest: self.rest,
            tab: self.tab,
            hidden: self.hidden,
            offset: self.offset,
            column: self.column,
        }
    }

    /// Returns the next cell, if there is one. Returns `AllocError` if its column exceeds `usize::MAX`.
    #[inline(always)]
    pub fn next(&mut self) -> Result<Option<Cell>, AllocError>
        ensures { IfOk result (λ next. MatchOption next ((self.old ≡ []) × (self.new ≡ []))
            (λ cell. self.old ≡ cell_of cell ∷ self.new)) }
    {
        if self.rest.is_empty() {
            return Ok(None);
        }
        let (code, size, columns) = measured(self.rest);
        let width = width_there(self.tab, self.hidden, self.column, code, columns);
        let until = sum(self.column, width)?;
        let cell = Cell {
            code,
            start: self.offset,
            after: self.offset + size,
            from: self.column,
            until,
        };
        self.rest = &self.rest[size..];
        self.hidden = hides_later(self.hidden, code);
        self.offset += size;
        self.column = until;
        Ok(Some(cell))
    }

    /// Skips the cells of printable ASCII that follow, up to `most`. Returns `AllocError` if a column exceeds
    /// `usize::MAX`.
    pub fn pass_plain(&mut self, most: usize) -> Result<PlainCells, AllocError>
        ensures few { IfOk result (λ passed. passed.many ≤ most) }
        ensures passed { IfOk result (λ passed. ComeFirst passed self.old self.new) }
    {
        let start = self.offset;
        let from = self.column;
        if self.hidden {
            return Ok(PlainCells {
                start,
                from,
                many: 0,
            });
        }
        let many = plain_len(&self.rest[..self.rest.len().min(most)]);
        let after = sum(from, many)?;
        self.rest = &self.rest[many..];
        self.offset += many;
        self.column = after;
        Ok(PlainCells { start, from, many })
    }
}
