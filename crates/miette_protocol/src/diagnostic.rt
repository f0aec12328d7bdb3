//! A diagnostic that is plain data, as in miette 7.6.0.

ghost use Rattle.std.specs.Prelude.{◌≡◌, ◌↔◌, List, [], ◌∷◌, IfOk, IsTrue, Some, None, false, true, string_bytes};
ghost use Rattle.std.specs.Iterator.{Drains, IsFinite};
ghost use Rattle.std.specs.Option.{option_copied, option_map};
ghost use Rattle.miette_protocol.specs.rules.Reading.{Span};
ghost use Rattle.miette_protocol.specs.views.Diagnostic.{meaning_of};
ghost use Rattle.miette_protocol.specs.views.Meaning.{Label};

use crate::protocol::{Diagnostic, LabeledSpan, Severity, SourceSpan};
use serde::{Deserialize, Serialize};
use std::alloc::{AllocError, Global};
use std::fmt;

/// A diagnostic that is plain data. Build it with the methods or set its fields. Methods `with_..` replace a part,
/// methods `and_..` append to it. A method that returns `AllocError` drops the diagnostic.
#[derive(Debug, Drop, PartialEq, Eq, Serialize, Deserialize)]
pub struct MietteDiagnostic {
    /// The message.
    pub message: String,
    /// The error code.
    #[serde(skip_serializing_if = "Option::is_none")]
    pub code: Option<String>,
    /// The severity.
    #[serde(skip_serializing_if = "Option::is_none")]
    pub severity: Option<Severity>,
    /// The help text.
    #[serde(skip_serializing_if = "Option::is_none")]
    pub help: Option<String>,
    /// The URL of further documentation.
    #[serde(skip_serializing_if = "Option::is_none")]
    pub url: Option<String>,
    /// The labels over the source.
    #[serde(skip_serializing_if = "Option::is_none")]
    pub labels: Option<Vec<LabeledSpan>>,
}

/// Two diagnostics are equal if all their parts are.
pub fn diagnostic_equality_law()
    ensures { (a b : MietteDiagnostic)
        → IsTrue (⟦<MietteDiagnostic as PartialEq>⟧.eq a b) ↔ (meaning_of a ≡ meaning_of b) }
{}

// Copies an optional text.
fn copied_text(alloc: Global, text: Option<&str>) -> Result<Option<String>, AllocError>
    ensures { IfOk result (λ it. option_map string_bytes it ≡ option_copied text.entry) }
{
    match text {
        Some(text) => Ok(Some(String::from_str(alloc, text)?)),
        None => Ok(None),
    }
}

// Copies an optional list of labels.
fn copied_labels(
    alloc: Global,
    labels: Option<&[LabeledSpan]>,
) -> Result<Option<Vec<LabeledSpan>>, AllocError>
    ensures { IfOk result (λ it. option_map (λ list. list.items) it ≡ option_copied labels.entry) }
{
    match labels {
        Some(labels) => Ok(Some(labels.to_vec(alloc)?)),
        None => Ok(None),
    }
}

impl MietteDiagnostic {
    ghost use Rattle.miette_protocol.specs.views.Diagnostic.{meaning_of, message_alone, appended_labels};
    ghost use Rattle.miette_protocol.specs.views.Diagnostic.{with_label_at};

    /// Creates a diagnostic with a copy of a message and nothing else.
    ///
    /// # Errors
    /// `AllocError` if allocation fails.
    pub fn new(alloc: Global, message: &str) -> Result<Self, AllocError>
        ensures { IfOk result (λ it. meaning_of it ≡ message_alone message.now) }
    {
        Ok(MietteDiagnostic {
            message: String::from_str(alloc, message)?,
            code: None,
            severity: None,
            help: None,
            url: None,
            labels: None,
        })
    }

    /// Creates a plain diagnostic with copies of the texts and labels that another one returns now.
    ///
    /// # Errors
    /// `AllocError` if allocation fails.
    pub fn copied<D: Diagnostic>(alloc: Global, diagnostic: &D) -> Result<Self, AllocError>
        ensures { IfOk result (λ it. meaning_of it ≡ D.meaning diagnostic.now) }
    {
        Ok(MietteDiagnostic {
            message: String::from_str(alloc, diagnostic.message())?,
            code: copied_text(alloc, diagnostic.code())?,
            severity: diagnostic.severity(),
            help: copied_text(alloc, diagnostic.help())?,
            url: copied_text(alloc, diagnostic.url())?,
            labels: copied_labels(alloc, diagnostic.labels())?,
        })
    }

    /// Sets the code.
    ///
    /// # Errors
    /// `AllocError` if allocation fails. The value is then dropped.
    pub fn with_code(mut self, alloc: Global, code: &str) -> Result<Self, AllocError>
        ensures { IfOk result (λ it. meaning_of it ≡ record (meaning_of self) { code = Some code.now }) }
    {
        self.code = Some(String::from_str(alloc, code)?);
        Ok(self)
    }

    /// Sets the severity. Does not allocate.
    pub fn with_severity(self, severity: Severity) -> Self
        ensures { meaning_of result ≡ record (meaning_of self) { severity = Some severity } }
    {
        MietteDiagnostic {
            severity: Some(severity),
            ..self
        }
    }

    /// Sets the help text.
    ///
    /// # Errors
    /// `AllocError` if allocation fails. The value is then dropped.
    pub fn with_help(mut self, alloc: Global, help: &str) -> Result<Self, AllocError>
        ensures { IfOk result (λ it. meaning_of it ≡ record (meaning_of self) { help = Some help.now }) }
    {
        self.help = Some(String::from_str(alloc, help)?);
        Ok(self)
    }

    /// Sets the URL.
    ///
    /// # Errors
    /// `AllocError` if allocation fails. The value is then dropped.
    pub fn with_url(mut self, alloc: Global, url: &str) -> Result<Self, AllocError>
        ensures { IfOk result (λ it. meaning_of it ≡ record (meaning_of self) { url = Some url.now }) }
    {
        self.url = Some(String::from_str(alloc, url)?);
        Ok(self)
    }

    /// Replaces all labels by one.
    ///
    /// # Errors
    /// `AllocError` if allocation fails. The value is then dropped.
    pub fn with_label(self, alloc: Global, label: LabeledSpan) -> Result<Self, AllocError>
        ensures { IfOk result (λ it. meaning_of it ≡ record (meaning_of self) {
          labels = Some (label ∷ []);
        }) }
    {
        let one = vec![in alloc; label]?;
        Ok(self.with_labels(one))
    }

    /// Replaces all labels. Does not allocate.
    pub fn with_labels(self, labels: Vec<LabeledSpan>) -> Self
        ensures { meaning_of result ≡ record (meaning_of self) { labels = Some labels.items } }
    {
        MietteDiagnostic {
            labels: Some(labels),
            ..self
        }
    }

    /// Replaces all labels by those of an iterator.
    ///
    /// # Errors
    /// `AllocError` if allocation fails. The value is then dropped.
    pub fn with_labels_from<I: IntoIterator<Item = LabeledSpan>>(
        self,
        alloc: Global,
        labels: I,
    ) -> Result<Self, AllocError>
        requires { (it : I.IntoIter) → I.into_iter_gives labels it →
            I.IntoIter.can_next it × IsFinite (I.IntoIter.remaining it) }
        ensures { IfOk result (λ it. (from : I.IntoIter) × (given : List Label) × I.into_iter_gives labels from
            × Drains I.IntoIter.next_gives from given
            × (meaning_of it ≡ record (meaning_of self) { labels = Some given })) }
    {
        let list = Vec::from_iter(alloc, labels)?;
        Ok(self.with_labels(list))
    }

    /// Appends a label.
    ///
    /// # Errors
    /// `AllocError` if allocation fails. The value is then dropped.
    pub fn and_label(mut self, alloc: Global, label: LabeledSpan) -> Result<Self, AllocError>
        ensures { IfOk result (λ it. meaning_of it ≡ record (meaning_of self) {
          labels = appended_labels (meaning_of self).labels (label ∷ []);
        }) }
    {
        let mut labels = self.labels.take().unwrap_or(Vec::new(alloc));
        labels.push(label)?;
        Ok(self.with_labels(labels))
    }

    /// Appends a label with a span and a copy of a text.
    ///
    /// # Errors
    /// `AllocError` if allocation fails. The value is then dropped.
    pub fn and_label_at<S: Into<SourceSpan>>(
        self,
        alloc: Global,
        span: S,
        text: &str,
    ) -> Result<Self, AllocError>
        ensures { IfOk result (λ it. (place : Span) × S.converts span place
            × (meaning_of it ≡ with_label_at (meaning_of self) place text.now false)) }
    {
        let label = LabeledSpan::at(alloc, span, text)?;
        self.and_label(alloc, label)
    }

    /// Like `and_label_at`, with a primary label.
    ///
    /// # Errors
    /// `AllocError` if allocation fails. The value is then dropped.
    pub fn and_primary_at<S: Into<SourceSpan>>(
        self,
        alloc: Global,
        span: S,
        text: &str,
    ) -> Result<Self, AllocError>
        ensures { IfOk result (λ it. (place : Span) × S.converts span place
            × (meaning_of it ≡ with_label_at (meaning_of self) place text.now true)) }
    {
        let label = LabeledSpan::primary_at(alloc, span, text)?;
        self.and_label(alloc, label)
    }

    /// Appends labels.
    ///
    /// # Errors
    /// `AllocError` if allocation fails. The value is then dropped.
    pub fn and_labels(
        mut self,
        alloc: Global,
        mut more: Vec<LabeledSpan>,
    ) -> Result<Self, AllocError>
        ensures { IfOk result (λ it. meaning_of it ≡ record (meaning_of self) {
          labels = appended_labels (meaning_of self).labels more.items;
        }) }
    {
        let mut labels = self.labels.take().unwrap_or(Vec::new(alloc));
        labels.append(&mut more)?;
        Ok(self.with_labels(labels))
    }
}

/// A clone has the same parts. Returns `AllocError` if allocation fails.
impl Clone for MietteDiagnostic {
    ghost use Rattle.std.specs.Prelude.{◌≡◌};
    ghost use Rattle.miette_protocol.specs.views.Diagnostic.{meaning_of};

    ghost is_clone = { λ it made. meaning_of made ≡ meaning_of it };

    fn clone(&self) -> Result<MietteDiagnostic, AllocError> {
        MietteDiagnostic::copied(*self.message.allocator(), self)
    }
}

/// Prints the message.
impl fmt::Display for MietteDiagnostic {
    ghost use Rattle.std.specs.Prelude.{Some, string_bytes};

    ghost output = { λ it. Some (string_bytes it.message) };

    fn fmt<W: fmt::Write>(&self, f: &mut fmt::Formatter<W>) -> fmt::Result {
        f.write_str(self.message())
    }
}

/// Returns the fields.
impl Diagnostic for MietteDiagnostic {
    ghost use Rattle.miette_protocol.specs.views.Diagnostic.{meaning_of};

    ghost meaning = { meaning_of };

    fn message(&self) -> &str {
        self.message.as_str()
    }

    fn code(&self) -> Option<&str> {
        match &self.code {
            Some(text) => Some(text.as_str()),
            None => None,
        }
    }

    fn severity(&self) -> Option<Severity> {
        self.severity
    }

    fn help(&self) -> Option<&str> {
        match &self.help {
            Some(text) => Some(text.as_str()),
            None => None,
        }
    }

    fn url(&self) -> Option<&str> {
        match &self.url {
            Some(text) => Some(text.as_str()),
            None => None,
        }
    }

    fn labels(&self) -> Option<&[LabeledSpan]> {
        match &self.labels {
            Some(labels) => Some(labels.as_slice()),
            None => None,
        }
    }
}
