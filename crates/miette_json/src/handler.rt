//! The JSON report.

ghost use Rattle.std.specs.Prelude.{◌≡◌, ◌++◌, true, IfOk, OnOk, OnErr, string_bytes};
ghost use Rattle.miette_tree.specs.views.Report.{tree_of};
ghost use Rattle.miette_json.specs.rules.JsonText.{IsJsonOf, value_text};
ghost use Rattle.miette_tree.specs.views.Handler.{AppendsOne};
ghost use Rattle.miette_tree.specs.rules.Reads.{report_reads};

use crate::laws;
use crate::report::push_report;
use crate::writer::JsonWriter;
use miette_protocol::error::RenderError;
use miette_protocol::protocol::Diagnostic;
use miette_protocol::source::SourceCode;
use miette_tree::report::Report;
use miette_tree::text_handler::{TextHandler, append_report_text};
use std::alloc::{AllocError, Global};

/// Renders a report as JSON (RFC 8259) for editors and build servers. The output is one object without a line feed at
/// its end. The handler has no settings.
#[derive(Clone, Debug, Default, Drop)]
pub struct JSONReportHandler;

impl JSONReportHandler {
    /// Creates the handler.
    pub fn new() -> Self {
        JSONReportHandler
    }

    /// Appends the report's JSON text. If allocation fails, `out` is unchanged.
    pub fn render_report(&self, report: &Report, out: &mut String) -> Result<(), RenderError>
        // The text spells a value that the report has. It represents that value and no other.
        ensures text { let tree = tree_of ⟦<Box<dyn Diagnostic> as Diagnostic>⟧.meaning
            ⟦<Box<dyn SourceCode> as SourceCode>⟧.source report.now in
            OnOk result (AppendsOne (IsJsonOf tree) (string_bytes out.old) (string_bytes out.new)) }
        // If the sources of its file names always read, the report has exactly one such value.
        ensures value { let tree = tree_of ⟦<Box<dyn Diagnostic> as Diagnostic>⟧.meaning
            ⟦<Box<dyn SourceCode> as SourceCode>⟧.source report.now in
            OnOk result (report_reads tree ≡ true →
            string_bytes out.new ≡ string_bytes out.old ++ value_text tree) }
        ensures memory { OnErr result (result ≡ Err RenderError.Memory) }
        ensures err { OnErr result (string_bytes out.new ≡ string_bytes out.old) }
    {
        append_report_text(out, self, report)
    }
}

impl TextHandler for JSONReportHandler {
    ghost texts = { λ _. IsJsonOf };

    ghost refusals = { λ _ _. ⊥ };

    fn text_of<D: Diagnostic, S: SourceCode>(
        &self,
        alloc: Global,
        report: &Report<D, S>,
    ) -> Result<String, RenderError> {
        let text = json_of(alloc, report)?;
        Ok(text)
    }
}

/// Initial capacity of the output in bytes, enough for a small report.
const ROOM: usize = 128;

/// The JSON text of a report.
fn json_of<D: Diagnostic, S: SourceCode>(
    alloc: Global,
    report: &Report<D, S>,
) -> Result<String, AllocError>
    ensures { IfOk result (λ text. IsJsonOf (tree_of D.meaning S.source report.now) (string_bytes text)) }
{
    laws::json_spelling_denotes_its_value();
    laws::json_text_denotes_one_value();
    let mut json = JsonWriter::with_capacity(alloc, ROOM)?;
    push_report(&mut json, report, None)?;
    Ok(json.into_text())
}
