//! Offsets and spans, in bytes, as in miette 7.6.0.

ghost use Rattle.std.specs.Prelude.{◌≡◌, ◌==◌, ℕ, ◌+◌, ◌-◌, ◌^◌, List, MatchResult};
ghost use Rattle.miette_protocol.specs.rules.Location.{IsLocation};
ghost use Rattle.std.specs.Range.{range_inclusive_start, range_inclusive_end};

use serde::{Deserialize, Serialize};
use std::error::Error;
use std::fmt;
use std::marker::Model;
use std::ops::{Range, RangeInclusive};

/// A number of bytes from the start of a source.
pub type ByteOffset = usize;

/// An offset into a source, in bytes.
#[derive(Clone, Copy, PartialEq, Eq, PartialOrd, Ord, Hash, Serialize, Deserialize)]
#[serde(transparent)]
pub struct SourceOffset(usize);

impl Model for SourceOffset {
    ghost use Rattle.std.specs.Prelude.{ℕ};

    ghost Value = { ℕ };

    ghost view = { λ it. it.0 };

    ghost inverse = { λ n. record { 0 = n } };
}

impl SourceOffset {
    /// Returns the byte offset of the first character whose line and column are both at least those given, or the
    /// length of the text if there is none. Lines and columns are one-based, columns count characters, and only LF ends
    /// a line, as in the original crate.
    pub fn from_location(source: &str, line: usize, column: usize) -> Self
        ensures { IsLocation source.now line column result }
    {
        let mut at = 0;
        let mut line_at = 1;
        let mut column_at = 1;
        for c in source.chars() {
            if line <= line_at && column <= column_at {
                return SourceOffset(at);
            }
            at += c.len_utf8();
            if c == '\n' {
                line_at += 1;
                column_at = 1;
            } else {
                column_at += 1;
            }
        }
        SourceOffset(at)
    }

    /// Returns the number of bytes from the start of the source.
    pub fn offset(&self) -> ByteOffset
        ensures { result ≡ self.now }
    {
        self.0
    }
}

/// Prints `SourceOffset(9)`.
impl fmt::Debug for SourceOffset {
    ghost use Rattle.std.specs.Prelude.{Some};
    ghost use Rattle.miette_protocol.specs.rules.DebugForms.{offset_form};

    ghost debug_output = { λ it. Some (offset_form it) };

    fn fmt<W: fmt::Write>(&self, f: &mut fmt::Formatter<W>) -> fmt::Result {
        if f.alternate() {
            return f.debug_tuple("SourceOffset").field(&self.0).finish();
        }
        write!(f, "SourceOffset({:?})", self.0)
    }
}

/// A text has exactly one location for a line and a column.
pub fn location_law()
    ensures { (text : List ℕ) (line column a b : ℕ)
        → IsLocation text line column a → IsLocation text line column b → a ≡ b }
{}

/// Converts a number of bytes.
impl From<ByteOffset> for SourceOffset {
    ghost from_gives = { λ offset it. it ≡ offset };

    fn from(offset: ByteOffset) -> Self {
        SourceOffset(offset)
    }
}

/// A range of a source: its offset and length, both in bytes.
#[derive(Clone, Copy, PartialEq, Eq, PartialOrd, Ord, Hash, Serialize, Deserialize)]
pub struct SourceSpan {
    offset: SourceOffset,
    length: usize,
}

impl Model for SourceSpan {
    ghost use Rattle.miette_protocol.specs.rules.Reading.{Span};

    ghost Value = { Span };

    ghost view = { λ it. record { offset = it.offset; len = it.length } };

    ghost inverse = { λ span. record { offset = span.offset; length = span.len } };
}

impl SourceSpan {
    /// Creates the span of `length` bytes that begins at `start`.
    pub fn new(start: SourceOffset, length: usize) -> Self
        ensures { result ≡ record { offset = start; len = length } }
    {
        SourceSpan {
            offset: start,
            length,
        }
    }

    /// Creates the span of `length` bytes that begins at a line and column. Both are one-based, and columns count
    /// characters, as in `SourceOffset::from_location`. After the last character the span begins at the end of the
    /// text.
    pub fn at_line_column(text: &str, line: usize, column: usize, length: usize) -> Self
        ensures offset { IsLocation text.now line column result.offset }
        ensures len { result.len ≡ length }
    {
        SourceSpan::new(SourceOffset::from_location(text, line, column), length)
    }

    /// Returns where the span begins, in bytes from the start of the source.
    pub fn offset(&self) -> usize
        ensures { result ≡ self.now.offset }
    {
        self.offset.offset()
    }

    /// Returns the length of the span in bytes.
    pub fn len(&self) -> usize
        ensures { result ≡ self.now.len }
    {
        self.length
    }

    /// Whether the span has length 0.
    pub fn is_empty(&self) -> bool
        ensures { result ≡ (self.now.len == 0) }
    {
        self.len() == 0
    }
}

/// Prints `SourceSpan { offset: SourceOffset(9), length: 4 }`.
impl fmt::Debug for SourceSpan {
    ghost use Rattle.std.specs.Prelude.{Some};
    ghost use Rattle.miette_protocol.specs.rules.DebugForms.{span_form};

    ghost debug_output = { λ it. Some (span_form it) };

    fn fmt<W: fmt::Write>(&self, f: &mut fmt::Formatter<W>) -> fmt::Result {
        if f.alternate() {
            return f
                .debug_struct("SourceSpan")
                .field("offset", &self.offset)
                .field("length", &self.length)
                .finish();
        }
        write!(
            f,
            "SourceSpan {{ offset: {:?}, length: {:?} }}",
            self.offset, self.length
        )
    }
}

/// Converts an offset and a length, both in bytes.
impl From<(ByteOffset, usize)> for SourceSpan {
    ghost from_gives = { λ pair it. it ≡ record { offset = pair.0; len = pair.1 } };

    fn from(pair: (ByteOffset, usize)) -> Self {
        SourceSpan::new(SourceOffset::from(pair.0), pair.1)
    }
}

/// Converts an offset and a length in bytes.
impl From<(SourceOffset, usize)> for SourceSpan {
    ghost from_gives = { λ pair it. it ≡ record { offset = pair.0; len = pair.1 } };

    fn from(pair: (SourceOffset, usize)) -> Self {
        SourceSpan::new(pair.0, pair.1)
    }
}

/// Converts a half-open range. A range that ends before it starts becomes a span of length 0.
impl From<Range<ByteOffset>> for SourceSpan {
    ghost from_gives = { λ range it. it ≡ record {
      offset = range.start;
      len = range.end - range.start;
    } };

    fn from(range: Range<ByteOffset>) -> Self {
        SourceSpan::new(
            SourceOffset::from(range.start),
            range.end.saturating_sub(range.start),
        )
    }
}

/// Converts an offset to an empty span.
impl From<SourceOffset> for SourceSpan {
    ghost from_gives = { λ offset it. it ≡ record { offset = offset; len = 0 } };

    fn from(offset: SourceOffset) -> Self {
        SourceSpan::new(offset, 0)
    }
}

/// Converts an offset to an empty span.
impl From<ByteOffset> for SourceSpan {
    ghost from_gives = { λ offset it. it ≡ record { offset = offset; len = 0 } };

    fn from(offset: ByteOffset) -> Self {
        SourceSpan::new(SourceOffset::from(offset), 0)
    }
}

/// The length of an inclusive range exceeds `usize::MAX`. Only `0..=usize::MAX` is that long. (The original crate
/// panics there.)
#[derive(Clone, Copy, Debug, PartialEq, Eq)]
pub struct LengthOverflow;

/// Prints that the range is too long.
impl fmt::Display for LengthOverflow {
    ghost use Rattle.std.specs.Prelude.{Some};
    ghost use Rattle.miette_protocol.specs.rules.Texts.{overflow_text};

    ghost output = { λ _. Some overflow_text };

    fn fmt<W: fmt::Write>(&self, f: &mut fmt::Formatter<W>) -> fmt::Result {
        f.write_str("the length of the range is greater than a usize can say")
    }
}

impl Error for LengthOverflow {}

/// Converts an inclusive range. A range that ends before it starts becomes a span of length 0.
///
/// # Errors
/// `LengthOverflow` for `0..=usize::MAX`, and for no other range.
impl TryFrom<RangeInclusive<ByteOffset>> for SourceSpan {
    type Error = LengthOverflow;

    ghost try_from_gives = { λ range result. MatchResult result
        (λ it. it ≡ record {
          offset = range_inclusive_start range;
          len = range_inclusive_end range + 1 - range_inclusive_start range;
        })
        (λ _. (range_inclusive_start range ≡ 0) × (range_inclusive_end range + 1 ≡ 2 ^ 64)) };

    fn try_from(range: RangeInclusive<ByteOffset>) -> Result<Self, LengthOverflow> {
        let start = *range.start();
        let end = *range.end();
        let length = if end < start {
            0
        } else if end - start < usize::MAX {
            end - start + 1
        } else {
            return Err(LengthOverflow);
        };
        Ok(SourceSpan::new(SourceOffset::from(start), length))
    }
}
