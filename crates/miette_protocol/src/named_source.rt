//! A source with a name.

ghost use Rattle.std.specs.Prelude.{◌≡◌, Some, None, IfOk, if◌then◌else◌};

use crate::contents::MietteSpanContents;
use crate::protocol::SourceSpan;
use crate::source_code::{ReadResult, SourceCode};
use miette_lines::near::KnownLines;
use std::alloc::{AllocError, Global};

/// A source with a name and an optional language. Everything else comes from the inner source, and so does the language
/// if none is set.
#[derive(Drop, PartialEq, Eq, PartialOrd, Ord, Hash)]
pub struct NamedSource<S> {
    pub(crate) source: S,
    pub(crate) name: String,
    pub(crate) language: Option<String>,
}

impl<S: SourceCode> NamedSource<S> {
    ghost use Rattle.miette_protocol.specs.views.NamedSources.{inner_of, source_name, given_language};

    /// Names a source.
    ///
    /// # Errors
    /// `AllocError` if allocation fails. The source is then dropped.
    pub fn new(alloc: Global, name: &str, source: S) -> Result<Self, AllocError>
        ensures inner { IfOk result (λ it. inner_of it ≡ source) }
        ensures name { IfOk result (λ it. source_name it ≡ name.now) }
        ensures language { IfOk result (λ it. given_language it ≡ None) }
    {
        Ok(NamedSource {
            source,
            name: String::from_str(alloc, name)?,
            language: None,
        })
    }

    /// Sets the language.
    ///
    /// # Errors
    /// `AllocError` if allocation fails. The source is then dropped.
    pub fn with_language(self, alloc: Global, language: &str) -> Result<Self, AllocError>
        ensures inner { IfOk result (λ it. inner_of it ≡ inner_of self) }
        ensures name { IfOk result (λ it. source_name it ≡ source_name self) }
        ensures language { IfOk result (λ it. given_language it ≡ Some language.now) }
    {
        let language = String::from_str(alloc, language)?;
        let NamedSource {
            source,
            name,
            language: _,
        } = self;
        Ok(NamedSource {
            source,
            name,
            language: Some(language),
        })
    }

    /// Returns the name.
    pub fn name(&self) -> &str
        ensures { result.now ≡ source_name self.now }
    {
        self.name.as_str()
    }

    /// Returns the inner source.
    pub fn inner(&self) -> &S
        ensures { result.now ≡ inner_of self.now }
    {
        &self.source
    }
}

impl<S> NamedSource<S> {
    ghost use Rattle.std.specs.Option.{is_some};
    ghost use Rattle.miette_protocol.specs.views.NamedSources.{source_name, given_language};

    // Adds the name and language to contents of the inner source.
    fn named<'a>(&'a self, inner: &MietteSpanContents<'a>) -> MietteSpanContents<'a>
        ensures { result ≡ record inner.now {
          name = Some (source_name self.now);
          language = if is_some (given_language self.now) then given_language self.now else inner.now.language;
        } }
    {
        let named = MietteSpanContents::new_named(
            self.name.as_str(),
            inner.data(),
            *inner.span(),
            inner.line(),
            inner.column(),
            inner.line_count(),
        );
        let language = match &self.language {
            Some(language) => Some(language.as_str()),
            None => inner.language(),
        };
        match language {
            Some(language) => named.with_language(language),
            None => named,
        }
    }
}

impl<S: SourceCode> SourceCode for NamedSource<S> {
    ghost use Rattle.std.specs.Prelude.{Some};
    ghost use Rattle.miette_protocol.specs.rules.Reading.{named_source};
    ghost use Rattle.miette_protocol.specs.views.NamedSources.{inner_of, source_name, given_language};

    ghost source = { λ it. named_source (S.source (inner_of it)) (source_name it) (given_language it) };

    fn read_span(&self, span: &SourceSpan, before: usize, after: usize) -> ReadResult<'_> {
        let contents = self.source.read_span(span, before, after)?;
        Ok(self.named(&contents))
    }

    fn read_span_near(
        &self,
        known: KnownLines,
        span: &SourceSpan,
        before: usize,
        after: usize,
    ) -> ReadResult<'_> {
        let contents = self.source.read_span_near(known, span, before, after)?;
        Ok(self.named(&contents))
    }
}
