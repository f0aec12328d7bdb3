//! The trait of sources: bytes whose spans can be read.

ghost use Rattle.std.specs.Prelude.{string_bytes};
ghost use Rattle.miette_protocol.specs.rules.Reading.{Source, plain_source};
ghost use Rattle.miette_protocol.specs.rules.Outcome.{Answers};
ghost use Rattle.miette_lines.specs.views.Known.{IsKnown};

use crate::contents::MietteSpanContents;
use crate::error::MietteError;
use crate::find;
use crate::protocol::SourceSpan;
use miette_lines::indexed::IndexedSource;
use miette_lines::near::{KnownLines, NearScan, START};

/// The result of reading a span.
pub type ReadResult<'a> = Result<MietteSpanContents<'a>, MietteError>;

/// A source of bytes. Contracts describe it by its bytes, name and language, and by whether reading can fail.
pub trait SourceCode: Drop {
    ghost source: { Self → Source };

    /// Reads a span with `before` lines of context before it and `after` lines after it. The contents borrow the
    /// source's bytes.
    ///
    /// A line ends with LF, CRLF, or a CR that no LF follows. On a side without context the data begin or end where the
    /// span does; a CRLF at the end is kept whole, and an empty span at 0 is read as one byte. On a side with context
    /// the data begin or end at a line boundary.
    ///
    /// # Errors
    /// `OutOfBounds` only if the span begins after the end of the source or ends more than one byte after it. Such a
    /// span is never read. `IoError` only from a source that can fail to read; it may return that for any span.
    fn read_span(&self, span: &SourceSpan, before: usize, after: usize) -> ReadResult<'_>
        ensures { Answers (source self.now) span.now before after result };

    /// Like `read_span`, for callers that know the lines of two offsets. A source without an index counts lines from
    /// these offsets instead of its start. Pass `MietteSpanContents::known` of the previous read.
    ///
    /// # Errors
    /// Those of `read_span`.
    fn read_span_near(
        &self,
        known: KnownLines,
        span: &SourceSpan,
        before: usize,
        after: usize,
    ) -> ReadResult<'_>
        requires first { IsKnown (source self.now).bytes known.first }
        requires last { IsKnown (source self.now).bytes known.last }
        ensures { Answers (source self.now) span.now before after result }
    {
        let _known = known;
        self.read_span(span, before, after)
    }
}

/// Reads a span of bytes by scanning for lines from two offsets with known lines.
fn read_bytes<'a>(
    bytes: &'a [u8],
    known: KnownLines,
    span: &SourceSpan,
    before: usize,
    after: usize,
) -> ReadResult<'a>
    requires first { IsKnown bytes.now known.first }
    requires last { IsKnown bytes.now known.last }
    ensures { Answers (plain_source bytes.now) span.now before after result }
{
    find::read(&NearScan::new(bytes, known), bytes, span, before, after)
}

impl SourceCode for &[u8] {
    ghost source = { λ it. plain_source it.now };

    #[tactic(auto, using(crate::proofs::LineFacts::reads))]
    fn read_span(&self, span: &SourceSpan, before: usize, after: usize) -> ReadResult<'_> {
        read_bytes(self, START, span, before, after)
    }

    fn read_span_near(
        &self,
        known: KnownLines,
        span: &SourceSpan,
        before: usize,
        after: usize,
    ) -> ReadResult<'_> {
        read_bytes(self, known, span, before, after)
    }
}

impl SourceCode for Vec<u8> {
    ghost source = { λ it. plain_source it.items };

    #[tactic(auto, using(crate::proofs::LineFacts::reads))]
    fn read_span(&self, span: &SourceSpan, before: usize, after: usize) -> ReadResult<'_> {
        read_bytes(self.as_slice(), START, span, before, after)
    }

    fn read_span_near(
        &self,
        known: KnownLines,
        span: &SourceSpan,
        before: usize,
        after: usize,
    ) -> ReadResult<'_> {
        read_bytes(self.as_slice(), known, span, before, after)
    }
}

impl SourceCode for &str {
    ghost source = { λ it. plain_source it.now };

    #[tactic(auto, using(crate::proofs::LineFacts::reads))]
    fn read_span(&self, span: &SourceSpan, before: usize, after: usize) -> ReadResult<'_> {
        read_bytes(self.as_bytes(), START, span, before, after)
    }

    fn read_span_near(
        &self,
        known: KnownLines,
        span: &SourceSpan,
        before: usize,
        after: usize,
    ) -> ReadResult<'_> {
        read_bytes(self.as_bytes(), known, span, before, after)
    }
}

impl SourceCode for String {
    ghost source = { λ it. plain_source (string_bytes it) };

    #[tactic(auto, using(crate::proofs::LineFacts::reads))]
    fn read_span(&self, span: &SourceSpan, before: usize, after: usize) -> ReadResult<'_> {
        read_bytes(self.as_str().as_bytes(), START, span, before, after)
    }

    fn read_span_near(
        &self,
        known: KnownLines,
        span: &SourceSpan,
        before: usize,
        after: usize,
    ) -> ReadResult<'_> {
        read_bytes(self.as_str().as_bytes(), known, span, before, after)
    }
}

/// It has no name and no language. Reading never fails.
impl SourceCode for IndexedSource {
    ghost source = { λ it. plain_source it };

    fn read_span(&self, span: &SourceSpan, before: usize, after: usize) -> ReadResult<'_> {
        find::read(self, self.bytes(), span, before, after)
    }
}

/// Forwards to the boxed source.
impl SourceCode for Box<dyn SourceCode> {
    ghost source = { λ it. (SourceCode-box it).source it.value };

    fn read_span(&self, span: &SourceSpan, before: usize, after: usize) -> ReadResult<'_> {
        (**self).read_span(span, before, after)
    }

    fn read_span_near(
        &self,
        known: KnownLines,
        span: &SourceSpan,
        before: usize,
        after: usize,
    ) -> ReadResult<'_> {
        (**self).read_span_near(known, span, before, after)
    }
}
