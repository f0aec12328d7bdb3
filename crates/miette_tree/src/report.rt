//! Reports: an error with its message, labels, source, causes and related reports.

pub use crate::attachments::Snippets;
pub use crate::chain::Chain;
pub use crate::constructors::DefaultBoxes;
pub use crate::innermost::ReportKind;
pub use crate::owned::{OwnedSource, SourceRef};
pub use crate::tree::{Cause, Report};
pub use crate::wrap_err::{IntoDiagnostic, WrapErr, WrapErr as Context};

/// A result whose error is a `Report` by default.
pub type Result<T, E = Report> = std::result::Result<T, E>;
