//! The contents that a read returns.

ghost use Rattle.std.specs.Prelude.{◌≡◌, Some, None};
ghost use Rattle.std.specs.Option.{option_copied};
ghost use Rattle.miette_protocol.specs.rules.Reading.{Contents};

use crate::protocol::SourceSpan;
use miette_lines::near::{KnownLine, KnownLines};
use std::alloc::AllocError;
use std::marker::Model;

/// The contents that a read returns: the bytes, their position in the source, and the source's name and language. All
/// of it is borrowed. It replaces the trait `SpanContents` of the original crate.
#[derive(Debug, Drop)]
pub struct MietteSpanContents<'a> {
    bytes: &'a [u8],
    span: SourceSpan,
    line: usize,
    column: usize,
    line_count: usize,
    name: Option<&'a str>,
    language: Option<&'a str>,
}

impl<'a> Model for MietteSpanContents<'a> {
    ghost use Rattle.std.specs.Option.{option_map};
    ghost use Rattle.miette_protocol.specs.rules.Reading.{Contents};

    ghost Value = { Contents };

    ghost view = { λ it. record {
      bytes = it.bytes.now;
      span = it.span;
      line = it.line;
      column = it.column;
      line_count = it.line_count;
      name = option_map (λ t. t.now) it.name;
      language = option_map (λ t. t.now) it.language;
    } };
}

/// A clone has the same contents. Does not allocate.
impl<'a> Clone for MietteSpanContents<'a> {
    ghost use Rattle.std.specs.Prelude.{◌≡◌};

    ghost is_clone = { λ it made. made ≡ it };

    ghost is_infallible = { λ _. Unit {0} };

    fn clone(&self) -> Result<MietteSpanContents<'a>, AllocError> {
        Ok(MietteSpanContents { ..*self })
    }
}

/// A clone of contents equals them.
pub fn contents_clone_law<'a>()
    ensures { (a b : Contents) → ⟦<MietteSpanContents<'a> as Clone>⟧.is_clone a b → b ≡ a }
{}

impl<'a> MietteSpanContents<'a> {
    /// Creates contents without a name from the bytes, their span, the zero-based line and column of the first byte,
    /// and the number of line terminators.
    pub fn new(
        data: &'a [u8],
        span: SourceSpan,
        line: usize,
        column: usize,
        line_count: usize,
    ) -> Self
        ensures { result ≡ record {
          bytes = «data».now;
          span = span;
          line = line;
          column = column;
          line_count = line_count;
          name = None;
          language = None;
        } }
    {
        MietteSpanContents {
            bytes: data,
            span,
            line,
            column,
            line_count,
            name: None,
            language: None,
        }
    }

    /// Like `new`, with the name of the source.
    pub fn new_named(
        name: &'a str,
        data: &'a [u8],
        span: SourceSpan,
        line: usize,
        column: usize,
        line_count: usize,
    ) -> MietteSpanContents<'a>
        ensures { result ≡ record {
          name = Some name.now;
          language = None;
          bytes = «data».now;
          span = span;
          line = line;
          column = column;
          line_count = line_count;
        } }
    {
        MietteSpanContents {
            name: Some(name),
            ..MietteSpanContents::new(data, span, line, column, line_count)
        }
    }

    /// Sets the language of the source, as highlighters know it.
    pub fn with_language(self, language: &'a str) -> Self
        ensures { result ≡ record self.entry { language = Some language.now } }
    {
        MietteSpanContents {
            language: Some(language),
            ..self
        }
    }

    /// Returns the bytes that were read, including context lines.
    pub fn data(&self) -> &'a [u8]
        ensures { result.now ≡ self.now.bytes }
    {
        self.bytes
    }

    /// Returns the span of those bytes in the source.
    pub fn span(&self) -> &SourceSpan
        ensures { result.now ≡ self.now.span }
    {
        &self.span
    }

    /// Returns the name of the source, if it has one.
    pub fn name(&self) -> Option<&'a str>
        ensures { option_copied result ≡ self.now.name }
    {
        self.name
    }

    /// Returns the zero-based line number of the first byte.
    pub fn line(&self) -> usize
        ensures { result ≡ self.now.line }
    {
        self.line
    }

    /// Returns the offset of the first byte and its line.
    pub fn begin(&self) -> KnownLine
        ensures offset { result.offset ≡ self.now.span.offset }
        ensures line { result.line ≡ self.now.line }
    {
        KnownLine {
            offset: self.span.offset(),
            line: self.line,
        }
    }

    /// Returns the same twice, as a hint for a read nearby.
    pub fn known(&self) -> KnownLines
        ensures offset { result.first.offset ≡ self.now.span.offset }
        ensures line { result.first.line ≡ self.now.line }
        ensures last { result.last ≡ result.first }
    {
        let begin = self.begin();
        KnownLines {
            first: begin,
            last: begin,
        }
    }

    /// Returns the zero-based column of the first byte, in bytes.
    pub fn column(&self) -> usize
        ensures { result ≡ self.now.column }
    {
        self.column
    }

    /// Returns how many line terminators end in the bytes. (The original crate documents this, but counts from the
    /// start of the source.)
    pub fn line_count(&self) -> usize
        ensures { result ≡ self.now.line_count }
    {
        self.line_count
    }

    /// Returns the language of the source, if it is known.
    pub fn language(&self) -> Option<&'a str>
        ensures { option_copied result ≡ self.now.language }
    {
        self.language
    }
}
