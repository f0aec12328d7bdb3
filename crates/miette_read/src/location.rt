//! Locations in files, and annotations.

ghost use Rattle.std.specs.Prelude.{◌≡◌, ◌++◌, ◌∷◌, ◌==◌, IfOk, OnOk, map, option_map, string_bytes, codes, decimal};
ghost use Rattle.std.specs.Prelude.{count_by, nat_le};
ghost use Rattle.miette_read.specs.rules.Places.{clash, ends_between, holds, is_same, is_within, join_rows, last_byte};
ghost use Rattle.miette_read.specs.rules.Places.{near, on_one_line, tool_location_text, row_after, shares_byte};
ghost use Rattle.miette_read.specs.rules.Places.{text_after};

use miette_lines::numbers::push_number;
use std::alloc::{AllocError, Global};
use std::marker::Model;

/// A range of bytes in a file.
#[derive(Clone, Copy)]
pub struct ByteRange {
    /// The offset of the first byte.
    pub start: usize,
    /// The offset after the last byte.
    pub end: usize,
}

/// A location as a tool gives it.
#[derive(Drop)]
pub struct ToolLocation<'v> {
    /// The file's name.
    pub name: &'v str,
    /// The byte range, if it is known.
    pub stretch: Option<ByteRange>,
    /// The line, as the tool counts.
    pub line: u64,
    /// The column, as the tool counts.
    pub column: u64,
}

/// An annotation of a message: text, and a location if it has one.
#[derive(Drop)]
pub struct Annotation<'v> {
    /// The lines of its text.
    pub rows: Vec<String>,
    /// Its location.
    pub place: Option<ToolLocation<'v>>,
    /// Whether it is at the error itself.
    pub primary: bool,
    /// Whether it is one of the message's own, and not of a note or help.
    pub own: bool,
}

impl ByteRange {
    /// Returns the offset of the last byte, or of the start for an empty range.
    fn last_byte(self) -> usize
        ensures { result ≡ last_byte self }
    {
        self.start.max(self.end.saturating_sub(1))
    }

    /// Returns whether the range is on one line of its file.
    fn is_on_one_line(self, bytes: &[u8]) -> bool
        ensures { result ≡ on_one_line bytes.now self }
    {
        ends_at_most(bytes, self.start, self.last_byte(), 0)
    }

    /// Returns whether both ranges share a byte. An empty range counts as one byte.
    fn shares_byte(self, other: ByteRange) -> bool
        ensures { result ≡ shares_byte self other }
    {
        (self.start < other.end || self.start <= other.start)
            && (other.start < self.end || other.start <= self.start)
    }

    /// Returns whether both ranges are on one line each and share a byte.
    pub(crate) fn clashes(self, other: ByteRange, bytes: &[u8]) -> bool
        ensures { result ≡ clash bytes.now self other }
    {
        self.shares_byte(other) && (self.is_on_one_line(bytes) && other.is_on_one_line(bytes))
    }

    /// Returns whether each range starts at most three lines below the end of the other.
    pub(crate) fn is_near(self, other: ByteRange, bytes: &[u8]) -> bool
        ensures { result ≡ near bytes.now self other }
    {
        ends_at_most(bytes, self.last_byte(), other.start, 3)
            && ends_at_most(bytes, other.last_byte(), self.start, 3)
    }

    /// Returns whether both ranges are equal.
    pub(crate) fn is_same(self, other: ByteRange) -> bool
        ensures { result ≡ is_same self other }
    {
        self.start == other.start && self.end == other.end
    }

    /// Returns whether this range contains the other one.
    pub(crate) fn holds(self, other: ByteRange) -> bool
        ensures { result ≡ holds self other }
    {
        self.start <= other.start && other.end <= self.end
    }

    /// Returns whether the range is in bounds of a file with these bytes.
    pub(crate) fn is_within(self, bytes: &[u8]) -> bool
        ensures { result ≡ is_within bytes.now self }
    {
        self.start <= self.end && self.end <= bytes.len()
    }
}

/// Returns whether these bytes have at most `most` line feeds. It stops at the next one.
fn has_at_most(bytes: &[u8], most: usize) -> bool
    ensures { result ≡ nat_le (count_by (λ b. b == 10) bytes.now) most }
{
    let mut left = most;
    for byte in bytes {
        if *byte == b'\n' {
            if left == 0 {
                return false;
            }
            left -= 1;
        }
    }
    true
}

/// Returns whether there are at most `most` line feeds between two offsets. It stops at the next one.
fn ends_at_most(bytes: &[u8], from: usize, to: usize, most: usize) -> bool
    ensures { result ≡ nat_le (ends_between bytes.now from to) most }
{
    let to = to.min(bytes.len());
    if to <= from {
        return true;
    }
    has_at_most(&bytes[from..to], most)
}

/// Joins lines with line feeds. Returns `None` if there are none.
///
/// # Errors
/// `AllocError` if allocation fails.
pub fn join_rows(alloc: Global, rows: &[String]) -> Result<Option<String>, AllocError>
    ensures { IfOk result (λ o. option_map string_bytes o ≡ join_rows (map string_bytes rows.now)) }
{
    let Some((first, rest)) = rows.split_first() else {
        return Ok(None);
    };
    let mut text = String::from_str(alloc, first.as_str())?;
    for row in rest {
        text.push('\n')?;
        text.push_str(row.as_str())?;
    }
    Ok(Some(text))
}

/// Appends a colon and a number.
fn push_counted(text: &mut String, number: u64) -> Result<(), AllocError>
    ensures { OnOk result (string_bytes text.new ≡ string_bytes text.old ++ (codes ":" ++ decimal number)) }
{
    text.push_str(":")?;
    push_number(text, number as usize)
}

/// Appends `: ` and the lines, if there are any.
fn push_after(text: &mut String, alloc: Global, rows: &[String]) -> Result<(), AllocError>
    ensures { OnOk result (string_bytes text.new
        ≡ string_bytes text.old ++ text_after (join_rows (map string_bytes rows.now))) }
{
    let Some(told) = join_rows(alloc, rows)? else {
        return Ok(());
    };
    text.push_str(": ")?;
    text.push_str(told.as_str())
}

impl<'v> ToolLocation<'v> {
    /// Returns the text for a location that isn't found, like `a.c:1:2: text`.
    pub(crate) fn text(&self, alloc: Global, rows: &[String]) -> Result<String, AllocError>
        ensures { IfOk result (λ text. string_bytes text ≡ tool_location_text self.now (map string_bytes rows.now)) }
    {
        let mut text = String::from_str(alloc, self.name)?;
        push_counted(&mut text, self.line)?;
        push_counted(&mut text, self.column)?;
        push_after(&mut text, alloc, rows)?;
        Ok(text)
    }
}

impl Model for ByteRange {
    ghost use Rattle.miette_read.specs.rules.Places as places;

    ghost Value = { places.ByteRange };

    ghost view = { λ it. record { start = it.start; end = it.end } };

    ghost inverse = { λ it. record { start = it.start; end = it.end } };
}

impl<'v> Model for ToolLocation<'v> {
    ghost use Rattle.miette_read.specs.rules.Places as places;

    ghost Value = { places.ToolLocation };

    ghost view = { λ it. record { name = it.name.now; stretch = it.stretch; line = it.line; column = it.column } };
}

impl<'v> Model for Annotation<'v> {
    ghost use Rattle.std.specs.Prelude.{map, string_bytes};
    ghost use Rattle.miette_read.specs.rules.Places as places;

    ghost Value = { places.Annotation };

    ghost view = { λ it. record {
      rows = map string_bytes it.rows.items;
      place = it.place;
      primary = it.primary;
      own = it.own;
    } };
}
