//! Errors of reading and of rendering.

ghost use Rattle.std.specs.Prelude.{◌≡◌, ◌↔◌, IsTrue};

use crate::protocol::{Diagnostic, LabeledSpan, Severity};
use std::alloc::AllocError;
use std::error::Error;
use std::{fmt, io};

/// Why a span could not be read.
#[derive(Debug, Drop)]
pub enum MietteError {
    /// The source could not be read.
    IoError(io::Error),
    /// The span is out of bounds.
    OutOfBounds,
}

/// Wraps the error in `IoError`.
impl From<io::Error> for MietteError {
    ghost use Rattle.std.specs.Prelude.{◌≡◌};
    ghost use Rattle.miette_protocol.specs.declared.error.MietteError.TheVariants.{IoError};

    ghost from_gives = { λ inner it. it ≡ IoError inner };

    fn from(inner: io::Error) -> Self {
        MietteError::IoError(inner)
    }
}

/// Prints the inner error, or that the span is out of bounds.
impl fmt::Display for MietteError {
    ghost use Rattle.miette_protocol.specs.rules.Texts.{error_text};

    ghost output = { error_text };

    fn fmt<W: fmt::Write>(&self, f: &mut fmt::Formatter<W>) -> fmt::Result {
        match self {
            MietteError::IoError(error) => fmt::Display::fmt(error, f),
            MietteError::OutOfBounds => {
                f.write_str("The given offset is outside the bounds of its Source")
            }
        }
    }
}

impl Error for MietteError {}

/// Each error has a fixed code, help text and URL. It has no severity and no labels.
impl Diagnostic for MietteError {
    ghost use Rattle.miette_protocol.specs.rules.Texts.{error_meaning};

    ghost meaning = { error_meaning };

    fn message(&self) -> &str {
        match self {
            MietteError::IoError(_) => "a source could not be read",
            MietteError::OutOfBounds => "The given offset is outside the bounds of its Source",
        }
    }

    fn code(&self) -> Option<&str> {
        match self {
            MietteError::IoError(_) => Some("miette::io_error"),
            MietteError::OutOfBounds => Some("miette::span_out_of_bounds"),
        }
    }

    fn severity(&self) -> Option<Severity> {
        None
    }

    fn help(&self) -> Option<&str> {
        match self {
            MietteError::IoError(_) => None,
            MietteError::OutOfBounds => {
                Some("Double-check your spans. Do you have an off-by-one error?")
            }
        }
    }

    fn url(&self) -> Option<&str> {
        match self {
            MietteError::IoError(_) => Some(
                "https://docs.rs/miette/7.6.0/miette/enum.MietteError.html#variant.IoError",
            ),
            MietteError::OutOfBounds => Some(
                "https://docs.rs/miette/7.6.0/miette/enum.MietteError.html#variant.OutOfBounds",
            ),
        }
    }

    fn labels(&self) -> Option<&[LabeledSpan]> {
        None
    }
}

/// Why a report could not be rendered.
#[derive(Clone, Copy, Debug, PartialEq, Eq)]
pub enum RenderError {
    /// Allocation failed.
    Memory,
    /// A source failed to read, and the format has no text for that.
    Refused,
}

/// Rendering errors are equal if they are the same variant. A clone is the same variant.
pub fn render_error_law()
    ensures equal { (a b : RenderError) → IsTrue (⟦<RenderError as PartialEq>⟧.eq a b) ↔ (a ≡ b) }
    ensures cloned { (a b : RenderError) → ⟦<RenderError as Clone>⟧.is_clone a b → b ≡ a }
{}

/// Allocation failure becomes `Memory`.
impl From<AllocError> for RenderError {
    ghost use Rattle.std.specs.Prelude.{◌≡◌};
    ghost use Rattle.miette_protocol.specs.declared.error.RenderError.TheVariants.{Memory};

    ghost from_gives = { λ _ it. it ≡ Memory };

    fn from(_: AllocError) -> Self {
        RenderError::Memory
    }
}

/// Prints the error's text.
impl fmt::Display for RenderError {
    ghost use Rattle.std.specs.Prelude.{Some};
    ghost use Rattle.miette_protocol.specs.rules.Texts.{render_text};

    ghost output = { λ it. Some (render_text it) };

    fn fmt<W: fmt::Write>(&self, f: &mut fmt::Formatter<W>) -> fmt::Result {
        f.write_str(self.text())
    }
}

impl Error for RenderError {}

impl RenderError {
    ghost use Rattle.miette_protocol.specs.rules.Texts.{render_text};

    /// Returns the text that the error prints. Does not allocate.
    pub fn text(&self) -> &'static str
        ensures { result.now ≡ render_text self.now }
    {
        match self {
            RenderError::Memory => "memory allocation failed",
            RenderError::Refused => "a source could not be read where a label points",
        }
    }
}
