//! The debug handler.

ghost use Rattle.std.specs.Prelude.{◌≡◌, OnOk, OnErr, string_bytes};
ghost use Rattle.miette_tree.specs.views.Handler.{AppendsOne};
ghost use Rattle.miette_tree.specs.views.Report.{tree_of};
ghost use Rattle.miette_debug.specs.rules.DebugText.{IsDebugText};

use crate::debug_text::debug_fields;
use miette_protocol::error::RenderError;
use miette_protocol::protocol::Diagnostic;
use miette_protocol::source::SourceCode;
use miette_tree::report::Report;
use miette_tree::text_handler::{TextHandler, append_report_text};
use std::alloc::Global;

/// Renders the fields of a report for people who debug their tool, on one line: `Diagnostic { message: "m" }`. Missing
/// fields are left out. The handler has no settings.
#[derive(Clone, Debug, Default, Drop)]
pub struct DebugReportHandler;

impl DebugReportHandler {
    /// Creates the handler.
    pub fn new() -> Self {
        DebugReportHandler
    }

    /// Appends the report's fields. If allocation fails, `out` is unchanged.
    pub fn render_report(&self, report: &Report, out: &mut String) -> Result<(), RenderError>
        // This fixes all of the text except how non-ASCII texts are escaped.
        ensures text { let tree = tree_of ⟦<Box<dyn Diagnostic> as Diagnostic>⟧.meaning
            ⟦<Box<dyn SourceCode> as SourceCode>⟧.source report.now in
            OnOk result (AppendsOne (IsDebugText tree) (string_bytes out.old) (string_bytes out.new)) }
        ensures memory { OnErr result (result ≡ Err RenderError.Memory) }
        ensures err { OnErr result (string_bytes out.new ≡ string_bytes out.old) }
    {
        append_report_text(out, self, report)
    }
}

impl TextHandler for DebugReportHandler {
    ghost texts = { λ _. IsDebugText };

    ghost refusals = { λ _ _. ⊥ };

    fn text_of<D: Diagnostic, S: SourceCode>(
        &self,
        alloc: Global,
        report: &Report<D, S>,
    ) -> Result<String, RenderError> {
        let text = debug_fields(alloc, report)?;
        Ok(text)
    }
}
