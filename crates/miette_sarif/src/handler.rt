//! The SARIF handler.

ghost use Rattle.std.specs.Prelude.{◌≡◌, ◌++◌, ◌∷◌, [], None, Some, IfOk, OnOk, OnErr, map, string_bytes};
ghost use Rattle.miette_tree.specs.rules.Reads.{AllAlwaysRead};
ghost use Rattle.miette_tree.specs.rules.Tree.{Trees, trees};
ghost use Rattle.miette_tree.specs.views.Handler.{AppendsOne};
ghost use Rattle.miette_tree.specs.views.Report.{tree_of};
ghost use Rattle.miette_sarif.specs.rules.FindingList.{AreFindingsOf};
ghost use Rattle.miette_sarif.specs.rules.LogText.{IsLogOf, log_text};
ghost use Rattle.miette_sarif.specs.views.Findings.{sarif_findings_of};
ghost use Rattle.miette_sarif.specs.views.Handled.{tool_in};
ghost use Rattle.miette_sarif.specs.views.Tool.{tool_view};

use crate::finding::Finding;
use crate::gather::{sarif_findings_of, sarif_findings_of_one};
use crate::log::{Tool, log_text};
use miette_json::laws;
use miette_protocol::error::RenderError;
use miette_protocol::protocol::Diagnostic;
use miette_protocol::source::SourceCode;
use miette_tree::report::Report;
use miette_tree::text_handler::TextHandler;
use std::alloc::{AllocError, Global};
use std::slice;

/// Renders reports as a SARIF log (OASIS, version 2.1.0) for code reviews and build servers. The log has one run of a
/// tool, with a result for each report and each related report.
#[derive(Debug, Drop)]
pub struct SarifReportHandler {
    tool: String,
    version: Option<String>,
    information_uri: Option<String>,
}

impl SarifReportHandler {
    /// Creates a handler for logs of a tool with this name.
    ///
    /// # Errors
    /// `AllocError` if allocation fails.
    pub fn new(alloc: Global, tool: &str) -> Result<Self, AllocError>
        ensures { IfOk result (λ it. tool_in it ≡ record { name = tool.now; version = None; information = None }) }
    {
        Ok(SarifReportHandler {
            tool: String::from_str(alloc, tool)?,
            version: None,
            information_uri: None,
        })
    }

    /// Sets the tool's version.
    ///
    /// # Errors
    /// `AllocError` if allocation fails; the handler is dropped.
    pub fn with_version(self, alloc: Global, version: &str) -> Result<Self, AllocError>
        ensures { IfOk result (λ it. tool_in it ≡ record (tool_in self) { version = Some version.now }) }
    {
        Ok(SarifReportHandler {
            version: Some(String::from_str(alloc, version)?),
            ..self
        })
    }

    /// Sets the address of a page about the tool.
    ///
    /// # Errors
    /// `AllocError` if allocation fails; the handler is dropped.
    pub fn with_information_uri(self, alloc: Global, uri: &str) -> Result<Self, AllocError>
        ensures { IfOk result (λ it. tool_in it ≡ record (tool_in self) { information = Some uri.now }) }
    {
        Ok(SarifReportHandler {
            information_uri: Some(String::from_str(alloc, uri)?),
            ..self
        })
    }

    // Name, version and address of the tool.
    fn told(&self) -> Tool<'_>
        ensures { tool_view result ≡ tool_in self.now }
    {
        Tool {
            name: self.tool.as_str(),
            version: self.version.as_deref(),
            information: self.information_uri.as_deref(),
        }
    }

    /// Appends the log of a report. If allocation fails, `out` is unchanged.
    pub fn render_report(&self, report: &Report, out: &mut String) -> Result<(), RenderError>
        // The text spells the log, for some answers of the sources. It represents that value and no other.
        ensures text { let tree = tree_of ⟦<Box<dyn Diagnostic> as Diagnostic>⟧.meaning
            ⟦<Box<dyn SourceCode> as SourceCode>⟧.source report.now in
            OnOk result (AppendsOne (IsLogOf (tool_in self.now) (trees (tree ∷ [])))
            (string_bytes out.old) (string_bytes out.new)) }
        // If all sources of the report always read, there is exactly one such log.
        ensures value { let tree = tree_of ⟦<Box<dyn Diagnostic> as Diagnostic>⟧.meaning
            ⟦<Box<dyn SourceCode> as SourceCode>⟧.source report.now in
            OnOk result (AllAlwaysRead (trees (tree ∷ []))
            → string_bytes out.new ≡ string_bytes out.old ++ log_text (tool_in self.now) (trees (tree ∷ []))) }
        ensures memory { OnErr result (result ≡ Err RenderError.Memory) }
        ensures err { OnErr result (string_bytes out.new ≡ string_bytes out.old) }
    {
        self.render_reports(slice::from_ref(report), out)
    }

    /// Appends one log of all reports, in order. If allocation fails, `out` is unchanged.
    pub fn render_reports<D: Diagnostic, S: SourceCode>(
        &self,
        reports: &[Report<D, S>],
        out: &mut String,
    ) -> Result<(), RenderError>
        // The text spells the log, for some answers of the sources. It represents that value and no other.
        ensures text { let tree = tree_of D.meaning S.source in
            OnOk result (AppendsOne (IsLogOf (tool_in self.now) (trees (map tree reports.now)))
            (string_bytes out.old) (string_bytes out.new)) }
        // If all sources of the reports always read, there is exactly one such log.
        ensures value { let tree = tree_of D.meaning S.source in let ts = trees (map tree reports.now) in
            OnOk result (AllAlwaysRead ts
            → string_bytes out.new ≡ string_bytes out.old ++ log_text (tool_in self.now) ts) }
        ensures memory { OnErr result (result ≡ Err RenderError.Memory) }
        ensures err { OnErr result (string_bytes out.new ≡ string_bytes out.old) }
    {
        let text = match log_of(*out.allocator(), &self.told(), reports) {
            Ok(text) => text,
            Err(_) => return Err(RenderError::Memory),
        };
        match out.push_str(text.as_str()) {
            Ok(()) => Ok(()),
            Err(_) => Err(RenderError::Memory),
        }
    }
}

/// The handler is also a `ReportHandler`: it gives the log of one report.
impl TextHandler for SarifReportHandler {
    ghost texts = { λ it tree. IsLogOf (tool_in it) (trees (tree ∷ [])) };

    ghost refusals = { λ _ _. ⊥ };

    fn text_of<D: Diagnostic, S: SourceCode>(
        &self,
        alloc: Global,
        report: &Report<D, S>,
    ) -> Result<String, RenderError> {
        let findings = sarif_findings_of_one(alloc, report)?;
        let text = spelled_log(alloc, &self.told(), findings)?;
        Ok(text)
    }
}

// Returns the log of reports as text.
fn log_of<D: Diagnostic, S: SourceCode>(
    alloc: Global,
    tool: &Tool<'_>,
    reports: &[Report<D, S>],
) -> Result<String, AllocError>
    ensures { IfOk result (λ text. IsLogOf (tool_view tool.now) (trees (map (tree_of D.meaning S.source) reports.now))
        (string_bytes text)) }
{
    let findings = sarif_findings_of(alloc, reports)?;
    spelled_log(alloc, tool, findings)
}

// Returns the log of findings as text.
fn spelled_log(
    alloc: Global,
    tool: &Tool<'_>,
    findings: Vec<Finding<'_>>,
) -> Result<String, AllocError>
    ensures { IfOk result (λ text. (ts : Trees) → AreFindingsOf ts (sarif_findings_of findings.entry.items)
        → IsLogOf (tool_view tool.now) ts (string_bytes text)) }
{
    laws::json_spelling_denotes_its_value();
    laws::json_text_denotes_one_value();
    log_text(alloc, tool, &findings)
}
