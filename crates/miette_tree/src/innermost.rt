//! The error that a report was created from.
ghost use Rattle.std.specs.Prelude.{◌≡◌};
ghost use Rattle.std.specs.Option.{option_copied};

use miette_protocol::diagnostic::MietteDiagnostic;
use miette_protocol::error::RenderError;
use miette_protocol::protocol::{Diagnostic, LabeledSpan, Severity};

/// The error that a report was created from, without the messages that `wrap_err` added.
#[derive(Drop)]
pub(crate) enum Innermost<D> {
    Message(String),
    Built(MietteDiagnostic),
    Boxed(D),
    Unwritten(RenderError),
    OutOfMemory,
}

/// What a report was created from, as `Report::kind` returns it. Messages that `wrap_err` added do not change it.
#[derive_where(Clone, Copy)]
pub enum ReportKind<'a, D = Box<dyn Diagnostic>> {
    /// A message and nothing else.
    Message,
    /// A plain diagnostic.
    Built(&'a MietteDiagnostic),
    /// A boxed diagnostic.
    Boxed(&'a D),
    /// An allocation failure.
    OutOfMemory,
}

// Forwards a getter to the diagnostic. Returns `None` if there is no diagnostic.
macro_rules! diagnostic_part {
    ($innermost:expr, $part:ident) => {
        match $innermost {
            Innermost::Built(diagnostic) => diagnostic.$part(),
            Innermost::Boxed(diagnostic) => diagnostic.$part(),
            _ => None,
        }
    };
}

impl<D: Diagnostic> Innermost<D> {
    ghost use Rattle.miette_tree.specs.views.Report.{innermost_meaning};
    ghost use Rattle.miette_tree.specs.views.Kind.{innermost_kind, kind_view};

    pub(crate) fn message(&self) -> &str
        ensures { result.now ≡ (innermost_meaning D.meaning self.now).message }
    {
        match self {
            Innermost::Message(text) => text.as_str(),
            Innermost::Built(diagnostic) => diagnostic.message(),
            Innermost::Boxed(diagnostic) => diagnostic.message(),
            Innermost::Unwritten(error) => error.text(),
            Innermost::OutOfMemory => "memory allocation failed",
        }
    }

    pub(crate) fn code(&self) -> Option<&str>
        ensures { option_copied result ≡ (innermost_meaning D.meaning self.now).code }
    {
        diagnostic_part!(self, code)
    }

    pub(crate) fn severity(&self) -> Option<Severity>
        ensures { result ≡ (innermost_meaning D.meaning self.now).severity }
    {
        diagnostic_part!(self, severity)
    }

    pub(crate) fn help(&self) -> Option<&str>
        ensures { option_copied result ≡ (innermost_meaning D.meaning self.now).help }
    {
        diagnostic_part!(self, help)
    }

    pub(crate) fn url(&self) -> Option<&str>
        ensures { option_copied result ≡ (innermost_meaning D.meaning self.now).url }
    {
        diagnostic_part!(self, url)
    }

    pub(crate) fn labels(&self) -> Option<&[LabeledSpan]>
        ensures { option_copied result ≡ (innermost_meaning D.meaning self.now).labels }
    {
        diagnostic_part!(self, labels)
    }

    pub(crate) fn kind(&self) -> ReportKind<'_, D>
        ensures { kind_view result ≡ innermost_kind self.now }
    {
        match self {
            Innermost::Message(_) | Innermost::Unwritten(_) => ReportKind::Message,
            Innermost::Built(diagnostic) => ReportKind::Built(diagnostic),
            Innermost::Boxed(diagnostic) => ReportKind::Boxed(diagnostic),
            Innermost::OutOfMemory => ReportKind::OutOfMemory,
        }
    }
}
