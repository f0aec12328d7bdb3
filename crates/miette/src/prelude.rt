//! The names that most programs use: `use miette::prelude::*;`.

pub use crate::handlers::{
    BriefReportHandler, GraphicalReportHandler, JSONReportHandler, ReportHandler,
};
pub use crate::host::Host;
pub use crate::input::{input_name, read_text};
pub use crate::options::{MietteHandlerOpts, SetLayout, Terminal};
pub use crate::pieces::Piece;
pub use crate::print::{
    eprint_report, eprint_report_with, fail_with, print_report, print_report_with,
};
pub use crate::reporter::{Form, ReportArguments, Reporter};
pub use crate::source_text::SourceText;
pub use crate::terminal::{Stream, Streams};
pub use miette_fixes::fix::{Applicability, Edit, Fix};
pub use miette_protocol::diagnostic::MietteDiagnostic;
pub use miette_protocol::protocol::{Diagnostic, LabeledSpan, Severity, SourceSpan};
pub use miette_protocol::source::{NamedSource, SourceCode};
pub use miette_style::theme::GraphicalTheme;
pub use miette_tree::report::{IntoDiagnostic, OwnedSource, Report, Result, Snippets, WrapErr};
pub use miette_tree::{bail, diagnostic, ensure, miette};
