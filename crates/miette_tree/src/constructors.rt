//! Constructors of reports, and conversions into them.
ghost use Rattle.std.specs.Prelude.{◌≡◌, Some, IfOk};

use crate::innermost::Innermost;
use crate::messages::write_causes;
use crate::tree::Report;
use miette_protocol::diagnostic::MietteDiagnostic;
use miette_protocol::error::RenderError;
use miette_protocol::protocol::Diagnostic;
use miette_protocol::source::SourceCode;
use std::alloc::{AllocError, AllocFailed, Global};
use std::fmt;
use std::fmt::Display;

/// Implemented by `Report` with its default type parameters only. As a bound it makes `Report::new(diagnostic)` and
/// `value.wrap_err(alloc, "text")` work without type annotations.
pub trait DefaultBoxes {}

impl DefaultBoxes for Report {}

/// Constructors.
impl<D: Diagnostic, S: SourceCode> Report<D, S>
where
    Report<D, S>: DefaultBoxes,
{
    ghost use Rattle.miette_protocol.specs.views.Diagnostic.{meaning_of, message_alone};
    ghost use Rattle.miette_tree.specs.rules.Diagnosis.{plain_diagnosis};
    ghost use Rattle.miette_tree.specs.rules.Tree.{single_report};
    ghost use Rattle.miette_tree.specs.views.Report.{tree_of};
    ghost use Rattle.miette_tree.specs.views.Kind.{kind_of, message, built, boxed};
    ghost use Rattle.miette_tree.specs.rules.WrapErr.{Prints};

    /// Creates the report of a plain diagnostic. Does not allocate.
    pub fn new(diagnostic: MietteDiagnostic) -> Report<D, S>
        ensures tree { tree_of D.meaning S.source result ≡ single_report (plain_diagnosis (meaning_of diagnostic)) }
        ensures kind { kind_of result ≡ built diagnostic }
    {
        Report::built(diagnostic)
    }

    /// Creates the report of a boxed diagnostic. Does not allocate.
    pub fn new_boxed(diagnostic: D) -> Report<D, S>
        ensures tree { tree_of D.meaning S.source result ≡ single_report (plain_diagnosis (D.meaning diagnostic)) }
        ensures kind { kind_of result ≡ boxed diagnostic }
    {
        Report::from_innermost(Innermost::Boxed(diagnostic))
    }

    /// Creates a report from a copy of the texts and labels that a diagnostic returns now. Returns `AllocError` if
    /// allocation fails.
    pub fn copied<E: Diagnostic>(alloc: Global, error: &E) -> Result<Report<D, S>, AllocError>
        ensures tree { IfOk result (λ r. tree_of D.meaning S.source r
            ≡ single_report (plain_diagnosis (E.meaning error.now))) }
        ensures kind { IfOk result (λ r. (copy : MietteDiagnostic) × (meaning_of copy ≡ E.meaning error.now)
            × (kind_of r ≡ built copy)) }
    {
        let copy = MietteDiagnostic::copied(alloc, error)?;
        Ok(Report::built(copy))
    }

    /// Creates a report with a message and nothing else. Returns `AllocError` if allocation fails.
    pub fn msg(alloc: Global, text: &str) -> Result<Report<D, S>, AllocError>
        ensures tree { IfOk result (λ r. tree_of D.meaning S.source r
            ≡ single_report (plain_diagnosis (message_alone text.now))) }
        ensures kind { IfOk result (λ r. kind_of r ≡ message) }
    {
        Ok(Report::of_text(String::from_str(alloc, text)?))
    }

    /// Creates a report from an error of any type; its printed text becomes the message. Returns `AllocError` if
    /// allocation or printing fails.
    pub fn from_err<E: Display + Drop>(alloc: Global, error: E) -> Result<Report<D, S>, AllocError>
        ensures { IfOk result (Prints D.meaning S.source (E.output error)) }
    {
        Report::of_display(alloc, error)
    }
}

/// Prints the message.
impl<D: Diagnostic, S: SourceCode> fmt::Display for Report<D, S> {
    ghost use Rattle.miette_tree.specs.rules.Tree.{head};
    ghost use Rattle.miette_tree.specs.views.Report.{tree_of};

    ghost output = { λ r. Some (head (tree_of D.meaning S.source r)).message };

    fn fmt<W: fmt::Write>(&self, f: &mut fmt::Formatter<W>) -> fmt::Result {
        f.write_str(self.message())
    }
}

/// Prints the message and the causes, joined by `: `. A program that returns a report from `main` prints this.
impl<D: Diagnostic, S: SourceCode> fmt::Debug for Report<D, S> {
    ghost use Rattle.std.specs.Prelude.{true};
    ghost use Rattle.miette_tree.specs.rules.Display.{display_text};
    ghost use Rattle.miette_tree.specs.views.Report.{tree_of};

    ghost debug_output = { λ r. Some (display_text true (tree_of D.meaning S.source r)) };

    fn fmt<W: fmt::Write>(&self, f: &mut fmt::Formatter<W>) -> fmt::Result {
        fmt::Display::fmt(self, f)?;
        write_causes(f, self)
    }
}

/// Like `Report::new`. Does not allocate.
impl<D: Diagnostic, S: SourceCode> From<MietteDiagnostic> for Report<D, S> {
    ghost use Rattle.miette_protocol.specs.views.Diagnostic.{meaning_of};
    ghost use Rattle.miette_tree.specs.rules.Diagnosis.{plain_diagnosis};
    ghost use Rattle.miette_tree.specs.rules.Tree.{single_report};
    ghost use Rattle.miette_tree.specs.views.Report.{tree_of};
    ghost use Rattle.miette_tree.specs.views.Kind.{kind_of, built};

    ghost from_gives = { λ d r. (tree_of D.meaning S.source r ≡ single_report (plain_diagnosis (meaning_of d))) ×
        (kind_of r ≡ built d) };

    fn from(diagnostic: MietteDiagnostic) -> Report<D, S> {
        Report::from_innermost(Innermost::Built(diagnostic))
    }
}

/// The message is `memory allocation failed`.
impl<D: Diagnostic, S: SourceCode> From<AllocError> for Report<D, S> {
    ghost use Rattle.miette_tree.specs.rules.WrapErr.{IsOutOfMemory};

    ghost from_gives = { λ _ r. IsOutOfMemory D.meaning S.source r };

    fn from(_refused: AllocError) -> Report<D, S> {
        Report::from_innermost(Innermost::OutOfMemory)
    }
}

/// As for `AllocError`. The value that could not be stored is dropped.
impl<T: Drop, D: Diagnostic, S: SourceCode> From<AllocFailed<T>> for Report<D, S> {
    ghost use Rattle.miette_tree.specs.rules.WrapErr.{IsOutOfMemory};

    ghost from_gives = { λ _ r. IsOutOfMemory D.meaning S.source r };

    fn from(_refused: AllocFailed<T>) -> Report<D, S> {
        Report::from_innermost(Innermost::OutOfMemory)
    }
}

/// The report of a rendering error: as for `AllocError` if allocation failed, else the message is the error's text.
/// Does not allocate.
impl<D: Diagnostic, S: SourceCode> From<RenderError> for Report<D, S> {
    ghost use Rattle.miette_tree.specs.rules.WrapErr.{IsRenderFailure};

    ghost from_gives = { λ error r. IsRenderFailure D.meaning S.source error r };

    fn from(error: RenderError) -> Report<D, S> {
        match error {
            RenderError::Memory => Report::from_innermost(Innermost::OutOfMemory),
            RenderError::Refused => Report::from_innermost(Innermost::Unwritten(error)),
        }
    }
}
