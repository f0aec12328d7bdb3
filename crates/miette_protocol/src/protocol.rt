//! What describes an error: offsets, spans, labels, severities, and the trait `Diagnostic`.

ghost use Rattle.std.specs.Prelude.{◌≡◌, ◌↔◌, ◌++◌, ℕ, IsTrue};
ghost use Rattle.std.specs.Option.{option_copied};
ghost use Rattle.std.specs.Hash as fed;
ghost use Rattle.std.specs.Ordering.{on, then_cmp, nat_cmp};
ghost use Rattle.std.specs.declared.cmp.Ordering.TheVariants.{Less};
ghost use Rattle.miette_protocol.specs.views.Meaning.{Meaning, Label};
ghost use Rattle.miette_protocol.specs.rules.Reading.{Span};

pub use crate::label::LabeledSpan;
pub use crate::span::{ByteOffset, LengthOverflow, SourceOffset, SourceSpan, location_law};
use serde::{Deserialize, Serialize};
use std::hash::Hash;

/// The severity of a diagnostic, in ascending order.
#[derive(Clone, Copy, Debug, PartialEq, Eq, PartialOrd, Ord, Default, Serialize, Deserialize)]
pub enum Severity {
    /// A hint: nothing is wrong.
    Advice,
    /// Something may be wrong, but the program continues.
    Warning,
    /// Something is wrong. Reports treat a diagnostic without severity as an error.
    #[default]
    Error,
}

/// Comparing, hashing and cloning the types of this module. Values are equal if all their parts are, and a clone equals
/// the original. Offsets are ordered as numbers, spans by offset and then by length; both hash these numbers.
/// Severities ascend from advice to error. The default is an error.
pub fn comparison_laws()
    ensures equal_offsets { (a b : ℕ) → IsTrue (⟦<SourceOffset as PartialEq>⟧.eq a b) ↔ (a ≡ b) }
    ensures equal_spans { (a b : Span) → IsTrue (⟦<SourceSpan as PartialEq>⟧.eq a b) ↔ (a ≡ b) }
    ensures equal_labels { (a b : Label) → IsTrue (⟦<LabeledSpan as PartialEq>⟧.eq a b) ↔ (a ≡ b) }
    ensures offset_order { (a b : ℕ) → ⟦<SourceOffset as Ord>⟧.cmp a b ≡ nat_cmp a b }
    ensures span_order { (a b : Span) → ⟦<SourceSpan as Ord>⟧.cmp a b
        ≡ then_cmp (on (λ it. it.offset) nat_cmp) (on (λ it. it.len) nat_cmp) a b }
    ensures offset_hash { (a : ℕ) → ⟦<SourceOffset as Hash>⟧.hash_input a ≡ fed.usize a }
    ensures span_hash { (a : Span)
        → ⟦<SourceSpan as Hash>⟧.hash_input a ≡ fed.usize a.offset ++ fed.usize a.len }
    ensures cloned_offsets { (a b : ℕ) → ⟦<SourceOffset as Clone>⟧.is_clone a b → b ≡ a }
    ensures cloned_spans { (a b : Span) → ⟦<SourceSpan as Clone>⟧.is_clone a b → b ≡ a }
    ensures cloned_labels { (a b : Label) → ⟦<LabeledSpan as Clone>⟧.is_clone a b → b ≡ a }
    ensures cloned_severities { (a b : Severity) → ⟦<Severity as Clone>⟧.is_clone a b → b ≡ a }
    ensures equal_severities { (a b : Severity)
        → IsTrue (⟦<Severity as PartialEq>⟧.eq a b) ↔ (a ≡ b) }
    ensures cloned_overflows { (a b : LengthOverflow) → ⟦<LengthOverflow as Clone>⟧.is_clone a b → b ≡ a }
    ensures equal_overflows { (a b : LengthOverflow)
        → IsTrue (⟦<LengthOverflow as PartialEq>⟧.eq a b) ↔ (a ≡ b) }
    ensures severity_order { (⟦<Severity as Ord>⟧.cmp Severity.Advice Severity.Warning ≡ Less)
        × (⟦<Severity as Ord>⟧.cmp Severity.Warning Severity.Error ≡ Less)
        × (⟦<Severity as Ord>⟧.cmp Severity.Advice Severity.Error ≡ Less) }
    ensures default_severity { (it : Severity)
        → ⟦<Severity as Default>⟧.is_default it → it ≡ Severity.Error }
{}

/// Describes an error. An implementation writes every method and returns `None` for a part that it doesn't have.
pub trait Diagnostic: Drop {
    ghost meaning: { Self → Meaning };

    /// Returns the message.
    fn message(&self) -> &str
        ensures { result.now ≡ (meaning self.now).message };

    /// Returns the error code.
    fn code(&self) -> Option<&str>
        ensures { option_copied result ≡ (meaning self.now).code };

    /// Returns the severity.
    fn severity(&self) -> Option<Severity>
        ensures { result ≡ (meaning self.now).severity };

    /// Returns the help text.
    fn help(&self) -> Option<&str>
        ensures { option_copied result ≡ (meaning self.now).help };

    /// Returns the URL of further documentation.
    fn url(&self) -> Option<&str>
        ensures { option_copied result ≡ (meaning self.now).url };

    /// Returns the labels over the source.
    fn labels(&self) -> Option<&[LabeledSpan]>
        ensures { option_copied result ≡ (meaning self.now).labels };
}

/// Forwards to the boxed diagnostic.
impl Diagnostic for Box<dyn Diagnostic> {
    ghost meaning = { λ it. (Diagnostic-box it).meaning it.value };

    fn message(&self) -> &str {
        (**self).message()
    }

    fn code(&self) -> Option<&str> {
        (**self).code()
    }

    fn severity(&self) -> Option<Severity> {
        (**self).severity()
    }

    fn help(&self) -> Option<&str> {
        (**self).help()
    }

    fn url(&self) -> Option<&str> {
        (**self).url()
    }

    fn labels(&self) -> Option<&[LabeledSpan]> {
        (**self).labels()
    }
}
