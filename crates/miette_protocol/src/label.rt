//! Labels: spans with a text, as in miette 7.6.0.

ghost use Rattle.std.specs.Prelude.{◌≡◌, ◌==◌, ◌≤◌, Some, None, IfOk, true, false, string_bytes};
ghost use Rattle.std.specs.Option.{option_map, option_copied, ForSome};

use crate::span::{ByteOffset, SourceSpan};
use serde::{Deserialize, Serialize};
use std::alloc::{AllocError, Global};
use std::fmt;
use std::marker::Model;
use std::num::NonZeroUsize;

/// A span of a source, with an optional text. A label can be the primary one of its diagnostic, and can set its own
/// number of context lines.
#[derive(Drop, Serialize, Deserialize)]
pub struct LabeledSpan {
    #[serde(skip_serializing_if = "Option::is_none")]
    label: Option<String>,
    span: SourceSpan,
    primary: bool,
    #[serde(default, skip_serializing_if = "Option::is_none", with = "crate::context_lines")]
    context_lines: Option<NonZeroUsize>,
}

impl Model for LabeledSpan {
    ghost use Rattle.std.specs.Prelude.{string_bytes};
    ghost use Rattle.std.specs.Option.{option_map};
    ghost use Rattle.std.specs.Int.NonZero.{non_zero_usize_get};
    ghost use Rattle.miette_protocol.specs.views.Meaning.{Label};

    ghost Value = { Label };

    ghost view = { λ it. record {
      text = option_map string_bytes it.label;
      span = it.span;
      primary = it.primary;
      context = option_map non_zero_usize_get it.context_lines;
    } };
}

/// Two labels are equal if text, span, primary flag and number of context lines are.
impl PartialEq for LabeledSpan {
    ghost use Rattle.std.specs.Prelude.{◌==◌};
    ghost use Rattle.std.proofs.Common.{rules};
    ghost use Rattle.std.specs.Cmp.Rules.{comparing};
    ghost use mathlib.Core.Bool.{beq};
    ghost use Rattle.std.specs.Option.{option_eq};
    ghost use Rattle.std.specs.Cmp.Lexicographic.{pointwise};
    ghost use Rattle.std.specs.Ordering.{on, eq_of_both};

    ghost eq = { eq_of_both (on (λ it. it.text) (option_eq (pointwise ◌==◌)))
        (eq_of_both (on (λ it. it.span.offset) ◌==◌)
        (eq_of_both (on (λ it. it.span.len) ◌==◌)
        (eq_of_both (on (λ it. it.primary) beq) (on (λ it. it.context) (option_eq ◌==◌))))) };

    ghost laws = { Prim.search (comparing, rules) depth 12 };

    fn eq(&self, other: &LabeledSpan) -> bool {
        self.label == other.label
            && self.span == other.span
            && self.primary == other.primary
            && self.context_lines() == other.context_lines()
    }
}

impl Eq for LabeledSpan {
    ghost use Rattle.std.proofs.Common.{rules};
    ghost use Rattle.std.specs.Cmp.Rules.{comparing};

    ghost laws = { Prim.search (comparing, rules) depth 12 };
}

/// A clone equals the original. Returns `AllocError` if allocation fails.
impl Clone for LabeledSpan {
    ghost use Rattle.std.specs.Prelude.{◌≡◌};

    ghost is_clone = { λ it made. made ≡ it };

    fn clone(&self) -> Result<LabeledSpan, AllocError> {
        let label = match &self.label {
            Some(text) => Some(text.clone()?),
            None => None,
        };
        Ok(LabeledSpan {
            label,
            span: self.span,
            primary: self.primary,
            context_lines: self.context_lines,
        })
    }
}

/// Prints `LabeledSpan { label: .., span: .., primary: .., context_lines: .. }`.
impl fmt::Debug for LabeledSpan {
    ghost use Rattle.miette_protocol.specs.rules.DebugForms.{label_form};

    ghost debug_output = { label_form };

    fn fmt<W: fmt::Write>(&self, f: &mut fmt::Formatter<W>) -> fmt::Result {
        if f.alternate() {
            return f
                .debug_struct("LabeledSpan")
                .field("label", &self.label)
                .field("span", &self.span)
                .field("primary", &self.primary)
                .field("context_lines", &self.context_lines)
                .finish();
        }
        write!(
            f,
            "LabeledSpan {{ label: {:?}, span: {:?}, primary: {:?}, context_lines: {:?} }}",
            self.label, self.span, self.primary, self.context_lines
        )
    }
}

impl LabeledSpan {
    /// Creates a label that isn't primary. Offset and length are in bytes.
    pub fn new(label: Option<String>, offset: ByteOffset, len: usize) -> Self
        ensures { result ≡ record {
          text = option_map string_bytes label;
          span = record { offset = offset; len = len };
          primary = false;
          context = None;
        } }
    {
        LabeledSpan::new_with_span(label, (offset, len))
    }

    /// Creates a label that isn't primary.
    pub fn new_with_span<S: Into<SourceSpan>>(label: Option<String>, span: S) -> Self
        ensures text { result.text ≡ option_map string_bytes label }
        ensures span { S.converts span result.span }
        ensures primary { result.primary ≡ false }
        ensures context { result.context ≡ None }
    {
        LabeledSpan {
            label,
            span: span.into(),
            primary: false,
            context_lines: None,
        }
    }

    /// Creates a primary label.
    pub fn new_primary_with_span<S: Into<SourceSpan>>(label: Option<String>, span: S) -> Self
        ensures text { result.text ≡ option_map string_bytes label }
        ensures span { S.converts span result.span }
        ensures primary { result.primary ≡ true }
        ensures context { result.context ≡ None }
    {
        let mut it = LabeledSpan::new_with_span(label, span);
        it.primary = true;
        it
    }

    /// Creates a label with a copy of a text. It isn't primary.
    ///
    /// # Errors
    /// `AllocError` if allocation fails.
    pub fn at<S: Into<SourceSpan>>(alloc: Global, span: S, label: &str) -> Result<Self, AllocError>
        ensures text { IfOk result (λ it. it.text ≡ Some label.now) }
        ensures span { IfOk result (λ it. S.converts span it.span) }
        ensures primary { IfOk result (λ it. it.primary ≡ false) }
        ensures context { IfOk result (λ it. it.context ≡ None) }
    {
        let unlabeled = LabeledSpan::underline(span);
        let label = String::from_str(alloc, label)?;
        Ok(LabeledSpan {
            label: Some(label),
            ..unlabeled
        })
    }

    /// Creates a primary label with a copy of a text.
    ///
    /// # Errors
    /// `AllocError` if allocation fails.
    pub fn primary_at<S: Into<SourceSpan>>(
        alloc: Global,
        span: S,
        label: &str,
    ) -> Result<Self, AllocError>
        ensures text { IfOk result (λ it. it.text ≡ Some label.now) }
        ensures span { IfOk result (λ it. S.converts span it.span) }
        ensures primary { IfOk result (λ it. it.primary ≡ true) }
        ensures context { IfOk result (λ it. it.context ≡ None) }
    {
        Ok(LabeledSpan::at(alloc, span, label)?.as_primary())
    }

    /// Creates an empty label at a byte offset, with a copy of a text. It isn't primary.
    ///
    /// # Errors
    /// `AllocError` if allocation fails.
    pub fn at_offset(alloc: Global, offset: ByteOffset, label: &str) -> Result<Self, AllocError>
        ensures { IfOk result (λ it. it ≡ record {
          text = Some label.now;
          span = record { offset = offset; len = 0 };
          primary = false;
          context = None;
        }) }
    {
        LabeledSpan::at(alloc, offset, label)
    }

    /// Creates a label without text. It isn't primary.
    pub fn underline<S: Into<SourceSpan>>(span: S) -> Self
        ensures text { result.text ≡ None }
        ensures span { S.converts span result.span }
        ensures primary { result.primary ≡ false }
        ensures context { result.context ≡ None }
    {
        LabeledSpan::new_with_span(None, span)
    }

    /// Sets or removes the text.
    pub fn set_label(&mut self, label: Option<String>)
        ensures { self.new ≡ record self.old { text = option_map string_bytes label } }
    {
        self.label = label;
    }

    /// Sets the label's own number of context lines: `lines` lines before and after it are shown, whatever the
    /// handler's setting is.
    pub fn with_context_lines(self, lines: usize) -> Self
        requires { 1 ≤ lines }
        ensures { result ≡ record self { context = Some lines } }
    {
        LabeledSpan {
            context_lines: NonZeroUsize::new(lines),
            ..self
        }
    }

    /// Makes the label the primary one of its diagnostic.
    pub fn as_primary(self) -> Self
        ensures { result ≡ record self { primary = true } }
    {
        LabeledSpan {
            primary: true,
            ..self
        }
    }

    /// Returns the label's own number of context lines, if it has one.
    pub fn context_lines(&self) -> Option<usize>
        ensures own { result ≡ self.now.context }
        ensures positive { ForSome result (λ n. 1 ≤ n) }
    {
        match self.context_lines {
            Some(lines) => Some(lines.get()),
            None => None,
        }
    }

    /// Returns the text, if there is one.
    pub fn label(&self) -> Option<&str>
        ensures { option_copied result ≡ self.now.text }
    {
        match &self.label {
            Some(text) => Some(text.as_str()),
            None => None,
        }
    }

    /// Returns the span.
    pub fn inner(&self) -> &SourceSpan
        ensures { result.now ≡ self.now.span }
    {
        &self.span
    }

    /// Returns where the span begins, in bytes from the start of the source.
    pub fn offset(&self) -> ByteOffset
        ensures { result ≡ self.now.span.offset }
    {
        self.span.offset()
    }

    /// Returns the length of the span in bytes.
    pub fn len(&self) -> usize
        ensures { result ≡ self.now.span.len }
    {
        self.span.len()
    }

    /// Whether the span has length 0.
    pub fn is_empty(&self) -> bool
        ensures { result ≡ (self.now.span.len == 0) }
    {
        self.span.is_empty()
    }

    /// Whether the label is primary.
    pub fn primary(&self) -> bool
        ensures { result ≡ self.now.primary }
    {
        self.primary
    }
}
