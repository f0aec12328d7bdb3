//! The handler for editors.

ghost use Rattle.std.specs.Prelude.{◌≡◌, ◌++◌, ◌∷◌, [], IfOk, OnOk, OnErr, map, string_bytes};
ghost use Rattle.miette_lsp.specs.rules.LspText.{IsLspOf, lsp_text};
ghost use Rattle.miette_lsp.specs.views.Handled.{tool_in};
ghost use Rattle.miette_sarif.specs.rules.FindingList.{AreFindingsOf};
ghost use Rattle.miette_sarif.specs.views.Findings.{sarif_findings_of};
ghost use Rattle.miette_tree.specs.rules.Reads.{AllAlwaysRead};
ghost use Rattle.miette_tree.specs.rules.Tree.{Trees, trees};
ghost use Rattle.miette_tree.specs.views.Handler.{AppendsOne};
ghost use Rattle.miette_tree.specs.views.Report.{tree_of};

use crate::documents::push_documents;
use miette_json::laws;
use miette_json::writer::JsonWriter;
use miette_protocol::error::RenderError;
use miette_protocol::protocol::Diagnostic;
use miette_protocol::source::SourceCode;
use miette_sarif::finding::Finding;
use miette_sarif::gather::{sarif_findings_of, sarif_findings_of_one};
use miette_tree::report::Report;
use miette_tree::text_handler::TextHandler;
use std::alloc::{AllocError, Global};
use std::slice;

/// Renders reports for editors. The output lists for each source its diagnostics, as `textDocument/publishDiagnostics`
/// of the Language Server Protocol (3.17) has them. Each report and each related report is a diagnostic. A report
/// without a source is left out.
#[derive(Debug, Drop)]
pub struct LspReportHandler {
    tool: String,
}

impl LspReportHandler {
    /// Creates a handler for diagnostics of a tool with this name.
    ///
    /// # Errors
    /// `AllocError` if allocation fails.
    pub fn new(alloc: Global, tool: &str) -> Result<Self, AllocError>
        ensures { IfOk result (λ it. tool_in it ≡ tool.now) }
    {
        Ok(LspReportHandler {
            tool: String::from_str(alloc, tool)?,
        })
    }

    // Returns the documents of findings as text.
    fn spelled(&self, alloc: Global, findings: Vec<Finding<'_>>) -> Result<String, AllocError>
        ensures { IfOk result (λ text. (ts : Trees) → AreFindingsOf ts (sarif_findings_of findings.entry.items)
            → IsLspOf (tool_in self.now) ts (string_bytes text)) }
    {
        laws::json_spelling_denotes_its_value();
        laws::json_text_denotes_one_value();
        let mut json = JsonWriter::new(alloc);
        push_documents(&mut json, self.tool.as_str(), &findings)?;
        Ok(json.into_text())
    }

    // Returns the documents of reports as text.
    fn text_for<D: Diagnostic, S: SourceCode>(
        &self,
        alloc: Global,
        reports: &[Report<D, S>],
    ) -> Result<String, AllocError>
        ensures { IfOk result (λ text. IsLspOf (tool_in self.now) (trees (map (tree_of D.meaning S.source) reports.now))
            (string_bytes text)) }
    {
        let findings = sarif_findings_of(alloc, reports)?;
        self.spelled(alloc, findings)
    }

    /// Appends the documents of a report. If allocation fails, `out` is unchanged.
    pub fn render_report(&self, report: &Report, out: &mut String) -> Result<(), RenderError>
        // The text spells the documents, for some answers of the sources. It represents that value and no other.
        ensures text { let tree = tree_of ⟦<Box<dyn Diagnostic> as Diagnostic>⟧.meaning
            ⟦<Box<dyn SourceCode> as SourceCode>⟧.source report.now in
            OnOk result (AppendsOne (IsLspOf (tool_in self.now) (trees (tree ∷ [])))
            (string_bytes out.old) (string_bytes out.new)) }
        // If all sources of the report always read, there is exactly one such text.
        ensures value { let tree = tree_of ⟦<Box<dyn Diagnostic> as Diagnostic>⟧.meaning
            ⟦<Box<dyn SourceCode> as SourceCode>⟧.source report.now in
            OnOk result (AllAlwaysRead (trees (tree ∷ []))
            → string_bytes out.new ≡ string_bytes out.old ++ lsp_text (tool_in self.now) (trees (tree ∷ []))) }
        ensures memory { OnErr result (result ≡ Err RenderError.Memory) }
        ensures err { OnErr result (string_bytes out.new ≡ string_bytes out.old) }
    {
        self.render_reports(slice::from_ref(report), out)
    }

    /// Appends the documents of reports, in order. If allocation fails, `out` is unchanged.
    pub fn render_reports<D: Diagnostic, S: SourceCode>(
        &self,
        reports: &[Report<D, S>],
        out: &mut String,
    ) -> Result<(), RenderError>
        // The text spells the documents, for some answers of the sources. It represents that value and no other.
        ensures text { let tree = tree_of D.meaning S.source in
            OnOk result (AppendsOne (IsLspOf (tool_in self.now) (trees (map tree reports.now)))
            (string_bytes out.old) (string_bytes out.new)) }
        // If all sources of the reports always read, there is exactly one such text.
        ensures value { let tree = tree_of D.meaning S.source in let ts = trees (map tree reports.now) in
            OnOk result (AllAlwaysRead ts
            → string_bytes out.new ≡ string_bytes out.old ++ lsp_text (tool_in self.now) ts) }
        ensures memory { OnErr result (result ≡ Err RenderError.Memory) }
        ensures err { OnErr result (string_bytes out.new ≡ string_bytes out.old) }
    {
        let text = match self.text_for(*out.allocator(), reports) {
            Ok(text) => text,
            Err(_) => return Err(RenderError::Memory),
        };
        match out.push_str(text.as_str()) {
            Ok(()) => Ok(()),
            Err(_) => Err(RenderError::Memory),
        }
    }
}

/// The handler is also a `ReportHandler`: it gives the documents of one report.
impl TextHandler for LspReportHandler {
    ghost texts = { λ it tree. IsLspOf (tool_in it) (trees (tree ∷ [])) };

    ghost refusals = { λ _ _. ⊥ };

    fn text_of<D: Diagnostic, S: SourceCode>(
        &self,
        alloc: Global,
        report: &Report<D, S>,
    ) -> Result<String, RenderError> {
        let findings = sarif_findings_of_one(alloc, report)?;
        let text = self.spelled(alloc, findings)?;
        Ok(text)
    }
}
