//! Sources that a report owns, and the field that holds a report's source.
ghost use Rattle.std.specs.Prelude.{◌≡◌, Some, IfOk};
ghost use Rattle.std.specs.Option.{option_copied};
ghost use Rattle.miette_protocol.specs.rules.Reading.{plain_source, named_source};
ghost use Rattle.miette_protocol.specs.rules.Outcome.{Answers};
ghost use Rattle.miette_lines.specs.views.Known.{IsKnown};

use miette_protocol::protocol::SourceSpan;
use miette_protocol::source::{IndexedSource, KnownLines, NamedSource, ReadResult, SourceCode};
use std::alloc::{AllocError, Global};
use std::rc::Rc;

/// Bytes, with a line index or without one.
#[derive(Drop)]
enum SourceBytes {
    Unindexed(Vec<u8>),
    Indexed(IndexedSource),
}

impl SourceCode for SourceBytes {
    ghost use Rattle.miette_tree.specs.views.Owned.{bytes_in};

    ghost source = { λ it. plain_source (bytes_in it) };

    fn read_span(&self, span: &SourceSpan, before: usize, after: usize) -> ReadResult<'_> {
        match self {
            SourceBytes::Unindexed(bytes) => bytes.read_span(span, before, after),
            SourceBytes::Indexed(source) => source.read_span(span, before, after),
        }
    }

    fn read_span_near(
        &self,
        known: KnownLines,
        span: &SourceSpan,
        before: usize,
        after: usize,
    ) -> ReadResult<'_> {
        match self {
            SourceBytes::Unindexed(bytes) => bytes.read_span_near(known, span, before, after),
            SourceBytes::Indexed(source) => source.read_span_near(known, span, before, after),
        }
    }
}

/// Bytes, with a name or without one.
#[derive(Drop)]
enum SourceStorage {
    Plain(SourceBytes),
    Named(NamedSource<SourceBytes>),
}

/// A source that owns its bytes. Clones made by `share` use the same bytes. Reading never fails.
///
/// `new` and `named` build a line index in one pass over the bytes; after that any line is found quickly. Use them if
/// several reports share the source, or if a report has fixes or many labels.
///
/// `unindexed` and `named_unindexed` build no index. The labels of a report are then read in one pass up to the last
/// label. Use them for a single report with a few labels.
#[derive(Drop)]
pub struct OwnedSource {
    storage: Rc<SourceStorage>,
}

impl OwnedSource {
    ghost use Rattle.miette_tree.specs.views.Owned.{bytes_in, storage_source, owned_source};

    // Moves the storage into a reference-counted box.
    fn from_storage(alloc: Global, storage: SourceStorage) -> Result<OwnedSource, AllocError>
        ensures { IfOk result (λ it. owned_source it ≡ storage_source storage) }
    {
        match Rc::new(alloc, storage) {
            Ok(storage) => Ok(OwnedSource { storage }),
            Err(_) => Err(AllocError),
        }
    }

    // Names the bytes, and gives them a language if there is one.
    fn with_name(
        alloc: Global,
        name: &str,
        language: Option<&str>,
        bytes: SourceBytes,
    ) -> Result<OwnedSource, AllocError>
        ensures { IfOk result (λ it. owned_source it
            ≡ named_source (plain_source (bytes_in bytes)) name.now (option_copied language.entry)) }
    {
        let source = NamedSource::new(alloc, name, bytes)?;
        let source = match language {
            Some(language) => source.with_language(alloc, language)?,
            None => source,
        };
        OwnedSource::from_storage(alloc, SourceStorage::Named(source))
    }

    /// Creates a source without name and language, with a line index. Returns `AllocError` if allocation fails; the
    /// bytes are then dropped.
    pub fn new(alloc: Global, bytes: Vec<u8>) -> Result<OwnedSource, AllocError>
        ensures { IfOk result (λ it. owned_source it ≡ plain_source bytes.items) }
    {
        let source = IndexedSource::new(alloc, bytes)?;
        OwnedSource::from_storage(alloc, SourceStorage::Plain(SourceBytes::Indexed(source)))
    }

    /// Like `new`, without a line index.
    pub fn unindexed(alloc: Global, bytes: Vec<u8>) -> Result<OwnedSource, AllocError>
        ensures { IfOk result (λ it. owned_source it ≡ plain_source bytes.items) }
    {
        OwnedSource::from_storage(alloc, SourceStorage::Plain(SourceBytes::Unindexed(bytes)))
    }

    /// Creates a source with a name, a language if given, and a line index. Returns `AllocError` if allocation fails;
    /// the bytes are then dropped.
    pub fn named(
        alloc: Global,
        name: &str,
        language: Option<&str>,
        bytes: Vec<u8>,
    ) -> Result<OwnedSource, AllocError>
        ensures { IfOk result (λ it. owned_source it
            ≡ named_source (plain_source bytes.items) name.now (option_copied language.entry)) }
    {
        let source = IndexedSource::new(alloc, bytes)?;
        OwnedSource::with_name(alloc, name, language, SourceBytes::Indexed(source))
    }

    /// Like `named`, without a line index.
    pub fn named_unindexed(
        alloc: Global,
        name: &str,
        language: Option<&str>,
        bytes: Vec<u8>,
    ) -> Result<OwnedSource, AllocError>
        ensures { IfOk result (λ it. owned_source it
            ≡ named_source (plain_source bytes.items) name.now (option_copied language.entry)) }
    {
        OwnedSource::with_name(alloc, name, language, SourceBytes::Unindexed(bytes))
    }

    /// Returns another handle to the same bytes and index. They are freed with the last handle. Does not allocate;
    /// returns `AllocError` only if there are `usize::MAX` handles.
    pub fn share(&self) -> Result<OwnedSource, AllocError>
        ensures { IfOk result (λ it. owned_source it ≡ owned_source self.now) }
    {
        let storage = self.storage.clone()?;
        Ok(OwnedSource { storage })
    }
}

/// Does not allocate.
impl SourceCode for OwnedSource {
    ghost use Rattle.miette_tree.specs.views.Owned.{owned_source};

    ghost source = { owned_source };

    fn read_span(&self, span: &SourceSpan, before: usize, after: usize) -> ReadResult<'_> {
        match &*self.storage {
            SourceStorage::Plain(source) => source.read_span(span, before, after),
            SourceStorage::Named(source) => source.read_span(span, before, after),
        }
    }

    fn read_span_near(
        &self,
        known: KnownLines,
        span: &SourceSpan,
        before: usize,
        after: usize,
    ) -> ReadResult<'_> {
        match &*self.storage {
            SourceStorage::Plain(source) => source.read_span_near(known, span, before, after),
            SourceStorage::Named(source) => source.read_span_near(known, span, before, after),
        }
    }
}

/// The source of a report: boxed or owned.
#[derive(Drop)]
pub(crate) enum ReportSource<S> {
    Boxed(S),
    Owned(OwnedSource),
}

/// A borrowed source of a report.
#[derive_where(Clone, Copy)]
pub struct SourceRef<'a, S = Box<dyn SourceCode>> {
    place: &'a ReportSource<S>,
}

impl<'a, S> SourceRef<'a, S> {
    pub(crate) fn to(place: &'a ReportSource<S>) -> SourceRef<'a, S>
        ensures { result.place.now ≡ place.now }
    {
        SourceRef { place }
    }
}

impl<'a, S: SourceCode> SourceRef<'a, S> {
    ghost use Rattle.miette_tree.specs.views.Owned.{ref_source};

    /// Reads a span of the source with `before` lines of context before it and `after` lines after it. The data, name
    /// and language are borrowed from the report. Allocates only if the source does. Errors are those of
    /// `SourceCode::read_span`; an owned source never returns `IoError`.
    pub fn read_span(self, span: &SourceSpan, before: usize, after: usize) -> ReadResult<'a>
        ensures { Answers (ref_source S.source self.entry) span.now before after result }
    {
        match self.place {
            ReportSource::Boxed(source) => source.read_span(span, before, after),
            ReportSource::Owned(source) => source.read_span(span, before, after),
        }
    }

    /// Like `read_span`, for callers that know the lines of two offsets.
    pub fn read_span_near(
        self,
        known: KnownLines,
        span: &SourceSpan,
        before: usize,
        after: usize,
    ) -> ReadResult<'a>
        requires first { IsKnown (ref_source S.source self).bytes known.first }
        requires last { IsKnown (ref_source S.source self).bytes known.last }
        ensures { Answers (ref_source S.source self.entry) span.now before after result }
    {
        match self.place {
            ReportSource::Boxed(source) => source.read_span_near(known, span, before, after),
            ReportSource::Owned(source) => source.read_span_near(known, span, before, after),
        }
    }
}

/// Reads from the source that it borrows.
impl<'a, S: SourceCode> SourceCode for SourceRef<'a, S> {
    ghost use Rattle.miette_tree.specs.views.Owned.{ref_source};

    ghost source = { ref_source S.source };

    fn read_span(&self, span: &SourceSpan, before: usize, after: usize) -> ReadResult<'_> {
        SourceRef::read_span(*self, span, before, after)
    }

    fn read_span_near(
        &self,
        known: KnownLines,
        span: &SourceSpan,
        before: usize,
        after: usize,
    ) -> ReadResult<'_> {
        SourceRef::read_span_near(*self, known, span, before, after)
    }
}
