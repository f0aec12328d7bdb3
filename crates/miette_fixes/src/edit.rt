//! A single edit of a source.

ghost use Rattle.std.specs.Prelude.{◌≡◌, [], string_bytes};

use miette_protocol::protocol::{ByteOffset, SourceSpan};
use serde::{Deserialize, Serialize};
use std::alloc::{AllocError, Global};
use std::marker::Model;

/// An edit replaces a span of a source by a text.
#[derive(Debug, Drop, Serialize, Deserialize)]
pub struct Edit {
    span: SourceSpan,
    text: String,
}

impl Model for Edit {
    ghost use Rattle.std.specs.Prelude.{string_bytes};
    ghost use Rattle.miette_fixes.specs.rules.Edits.{Replacement};

    ghost Value = { Replacement };

    ghost view = { λ it. record { span = it.span; text = string_bytes it.text } };
}

/// Two edits are equal if span and text are.
impl PartialEq for Edit {
    ghost use Rattle.std.specs.Prelude.{◌==◌};
    ghost use Rattle.std.proofs.Common.{rules};
    ghost use Rattle.std.specs.Cmp.Rules.{comparing};
    ghost use Rattle.std.specs.Cmp.Lexicographic.{pointwise};
    ghost use Rattle.std.specs.Ordering.{on, eq_of_both};

    ghost eq = { eq_of_both (on (λ it. it.span.offset) ◌==◌)
        (eq_of_both (on (λ it. it.span.len) ◌==◌) (on (λ it. it.text) (pointwise ◌==◌))) };

    ghost laws = { Prim.search (comparing, rules) depth 12 };

    fn eq(&self, other: &Edit) -> bool {
        self.span == other.span && self.text == other.text
    }
}

impl Eq for Edit {
    ghost use Rattle.std.proofs.Common.{rules};
    ghost use Rattle.std.specs.Cmp.Rules.{comparing};

    ghost laws = { Prim.search (comparing, rules) depth 12 };
}

/// A clone equals the original. Returns `AllocError` if allocation fails.
impl Clone for Edit {
    ghost use Rattle.std.specs.Prelude.{◌≡◌};

    ghost is_clone = { λ it made. made ≡ it };

    fn clone(&self) -> Result<Edit, AllocError> {
        Ok(Edit {
            span: self.span,
            text: self.text.clone()?,
        })
    }
}

impl Edit {
    /// Replaces a span by a text.
    pub fn replace<S: Into<SourceSpan>>(span: S, text: String) -> Self
        ensures span { S.converts span result.span }
        ensures text { result.text ≡ string_bytes text }
    {
        Edit {
            span: span.into(),
            text,
        }
    }

    /// Inserts a text at a byte offset.
    pub fn insert(offset: ByteOffset, text: String) -> Self
        ensures { result ≡ record {
          span = record { offset = offset; len = 0 };
          text = string_bytes text;
        } }
    {
        Edit::replace(offset, text)
    }

    /// Deletes a span. Does not allocate.
    pub fn delete<S: Into<SourceSpan>>(alloc: Global, span: S) -> Self
        ensures span { S.converts span result.span }
        ensures text { result.text ≡ [] }
    {
        Edit::replace(span, String::new(alloc))
    }

    /// Returns the span that is replaced.
    pub fn span(&self) -> &SourceSpan
        ensures { result.now ≡ self.now.span }
    {
        &self.span
    }

    /// Returns where the span begins, in bytes from the start of the source.
    pub fn offset(&self) -> ByteOffset
        ensures { result ≡ self.now.span.offset }
    {
        self.span.offset()
    }

    /// Returns the number of bytes that are deleted.
    pub fn len(&self) -> usize
        ensures { result ≡ self.now.span.len }
    {
        self.span.len()
    }

    /// Returns the text that is inserted.
    pub fn text(&self) -> &str
        ensures { result.now ≡ self.now.text }
    {
        self.text.as_str()
    }
}
