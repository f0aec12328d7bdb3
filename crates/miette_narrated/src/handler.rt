//! The narrated handler.

ghost use Rattle.std.specs.Prelude.{◌≡◌, ◌++◌, true, false, Some, OnOk, OnErr, string_bytes, option_copied};
ghost use Rattle.miette_tree.specs.views.Report.{tree_of};
ghost use Rattle.miette_tree.specs.rules.Reads.{report_reads, report_in_bounds};
ghost use Rattle.miette_tree.specs.views.Handler.{AppendsOne};
ghost use Rattle.miette_narrated.specs.rules.Report.{default_narration_settings, narration, unlisted};
ghost use Rattle.miette_narrated.specs.rules.PossibleAnswers.{IsNarrated, fixes_read};
ghost use Rattle.miette_narrated.specs.steps.NarrationSettings.{narration_settings_of};

use crate::report::narration_of;
use crate::settings::NarrationSettings;
use miette_protocol::error::RenderError;
use miette_protocol::protocol::Diagnostic;
use miette_protocol::source::SourceCode;
use miette_tree::report::Report;
use miette_tree::text_handler::{TextHandler, append_report_text};
use std::alloc::{AllocError, Global};
use std::marker::Model;

/// Renders a report in plain sentences for people who use a screen reader: no drawing, no colors, no wrapping.
///
/// Only `render_report`, `render`, `clone`, and `debug` and `display` of `ReportHandler` allocate.
#[derive(Debug, Drop)]
pub struct NarratableReportHandler {
    cause_chain: bool,
    context_lines: usize,
    footer: Option<String>,
}

impl Model for NarratableReportHandler {
    ghost use Rattle.std.specs.Prelude.{option_map, string_bytes};
    ghost use Rattle.miette_narrated.specs.rules.Report.{NarrationSettings};

    ghost Value = { NarrationSettings };

    ghost view = { λ it. record {
      cause_chain = it.cause_chain;
      context_lines = it.context_lines;
      footer = option_map string_bytes it.footer;
    } };
}

/// Returns a handler with the same settings, or `AllocError` if allocation fails.
impl Clone for NarratableReportHandler {
    ghost use Rattle.std.specs.Prelude.{◌≡◌};

    ghost is_clone = { λ it made. made ≡ it };

    fn clone(&self) -> Result<Self, AllocError> {
        Ok(NarratableReportHandler {
            footer: self.footer.clone()?,
            ..*self
        })
    }
}

/// Same as `new`.
impl Default for NarratableReportHandler {
    ghost use Rattle.std.specs.Prelude.{◌≡◌};
    ghost use Rattle.miette_narrated.specs.rules.Report.{default_narration_settings};

    ghost is_default = { λ it. it ≡ default_narration_settings };

    fn default() -> Self {
        NarratableReportHandler::new()
    }
}

impl NarratableReportHandler {
    /// Creates a handler that prints causes and one line of context, without a footer.
    pub fn new() -> Self
        ensures { result ≡ default_narration_settings }
    {
        NarratableReportHandler {
            cause_chain: true,
            context_lines: 1,
            footer: None,
        }
    }

    /// Prints the causes of the report.
    pub fn with_cause_chain(self) -> Self
        ensures { result ≡ record self { cause_chain = true } }
    {
        self.set_cause_chain(true)
    }

    /// Leaves out the causes of the report. The causes of related reports are still printed.
    pub fn without_cause_chain(self) -> Self
        ensures { result ≡ record self { cause_chain = false } }
    {
        self.set_cause_chain(false)
    }

    fn set_cause_chain(self, cause_chain: bool) -> Self
        ensures { result ≡ record self { cause_chain = cause_chain } }
    {
        NarratableReportHandler {
            cause_chain,
            ..self
        }
    }

    /// Prints this text as the last line.
    pub fn with_footer(self, footer: String) -> Self
        ensures { result ≡ record self { footer = Some (string_bytes footer) } }
    {
        NarratableReportHandler {
            footer: Some(footer),
            ..self
        }
    }

    /// Sets the number of context lines around labels that have no number of their own.
    pub fn with_context_lines(self, lines: usize) -> Self
        ensures { result ≡ record self { context_lines = lines } }
    {
        NarratableReportHandler {
            context_lines: lines,
            ..self
        }
    }

    fn settings(&self) -> NarrationSettings<'_>
        ensures { narration_settings_of result ≡ self.now }
    {
        NarrationSettings {
            cause_chain: self.cause_chain,
            context_lines: self.context_lines,
            footer: self.footer_text(),
        }
    }

    fn footer_text(&self) -> Option<&str>
        ensures { option_copied result ≡ self.now.footer }
    {
        match &self.footer {
            Some(text) => Some(text.as_str()),
            None => None,
        }
    }

    /// Appends the narrated text of a report. If it fails, `out` is unchanged. Returns `Memory` if allocation fails.
    /// Returns `Refused` if a label of the report or of a related one is out of bounds, or if a source that doesn't
    /// always read refuses a read. A group of labels in which one has its own number of context lines is read again,
    /// and that read may be refused too.
    pub fn render_report(&self, report: &Report, out: &mut String) -> Result<(), RenderError>
        // the text is one for answers that the sources can give
        ensures text { OnOk result (AppendsOne (IsNarrated self.now
            (tree_of ⟦<Box<dyn Diagnostic> as Diagnostic>⟧.meaning ⟦<Box<dyn SourceCode> as SourceCode>⟧.source
            report.now)) (string_bytes out.old) (string_bytes out.new)) }
        // if every source that labels or fixes use always reads, there is exactly one such text
        ensures only { OnOk result (report_reads
            (tree_of ⟦<Box<dyn Diagnostic> as Diagnostic>⟧.meaning ⟦<Box<dyn SourceCode> as SourceCode>⟧.source
            report.now) ≡ true → fixes_read (tree_of ⟦<Box<dyn Diagnostic> as Diagnostic>⟧.meaning
            ⟦<Box<dyn SourceCode> as SourceCode>⟧.source report.now) ≡ true →
            string_bytes out.new ≡ string_bytes out.old
            ++ narration self.now (tree_of ⟦<Box<dyn Diagnostic> as Diagnostic>⟧.meaning
            ⟦<Box<dyn SourceCode> as SourceCode>⟧.source report.now) unlisted) }
        ensures refused { (result ≡ Err RenderError.Refused) →
            report_in_bounds (tree_of ⟦<Box<dyn Diagnostic> as Diagnostic>⟧.meaning
            ⟦<Box<dyn SourceCode> as SourceCode>⟧.source report.now) ≡ false }
        ensures err { OnErr result (string_bytes out.new ≡ string_bytes out.old) }
    {
        self.render(report, out)
    }

    /// Same as `render_report`, for diagnostics and sources of any type.
    pub fn render<D: Diagnostic, S: SourceCode>(
        &self,
        report: &Report<D, S>,
        out: &mut String,
    ) -> Result<(), RenderError>
        ensures text { OnOk result (AppendsOne (IsNarrated self.now (tree_of D.meaning S.source report.now))
            (string_bytes out.old) (string_bytes out.new)) }
        ensures only { OnOk result (report_reads (tree_of D.meaning S.source report.now) ≡ true →
            fixes_read (tree_of D.meaning S.source report.now) ≡ true →
            string_bytes out.new ≡ string_bytes out.old
            ++ narration self.now (tree_of D.meaning S.source report.now) unlisted) }
        ensures refused { (result ≡ Err RenderError.Refused) →
            report_in_bounds (tree_of D.meaning S.source report.now) ≡ false }
        ensures err { OnErr result (string_bytes out.new ≡ string_bytes out.old) }
    {
        append_report_text(out, self, report)
    }
}

impl TextHandler for NarratableReportHandler {
    ghost texts = { IsNarrated };

    ghost refusals = { λ _ tree. report_in_bounds tree ≡ false };

    fn text_of<D: Diagnostic, S: SourceCode>(
        &self,
        alloc: Global,
        report: &Report<D, S>,
    ) -> Result<String, RenderError> {
        narration_of(alloc, self.settings(), report)
    }
}
