//! The brief handler.

ghost use Rattle.std.specs.Prelude.{◌≡◌, ◌++◌, true, false, map, IfOk, OnOk, OnErr, string_bytes};
ghost use Rattle.miette_tree.specs.rules.Tree.{cause_of, head, source_of, trees};
ghost use Rattle.miette_tree.specs.views.Owned.{opt_ref_source};
ghost use Rattle.miette_tree.specs.views.Report.{tree_of};
ghost use Rattle.miette_tree.specs.views.Handler.{AppendsOne};
ghost use Rattle.miette_tree.specs.rules.Reads.{AlwaysReads, accepts, report_passes, reports_pass};
ghost use Rattle.miette_tree.specs.rules.Reads.{report_in_bounds};
ghost use Rattle.miette_brief.specs.rules.Report.{default_brief_settings, brief, unlisted};
ghost use Rattle.miette_brief.specs.rules.PossibleAnswers.{IsBrief};
ghost use Rattle.miette_brief.specs.steps.AppendedParts.{AppendsBriefDiagnostic, AppendsBriefRelated};
ghost use Rattle.miette_brief.specs.steps.AppendedParts.{AppendsBriefReport};
ghost use Rattle.miette_brief.specs.steps.Reads.{brief_labels_accepted};
ghost use Rattle.miette_brief.specs.steps.WholeSources.{IsOwnIn, IsWholeIn};

use crate::form::BriefForm;
use crate::github::push_command;
use crate::report::push_diagnostic;
use crate::whole_source::{WholeSource, own_or_inherited, read_own_source};
use miette_protocol::error::RenderError;
use miette_protocol::protocol::Diagnostic;
use miette_protocol::source::SourceCode;
use miette_tree::parts::effective_source;
use miette_tree::report::{Report, SourceRef};
use miette_tree::text_handler::{TextHandler, append_report_text};
use std::alloc::{AllocError, Global};
use std::marker::Model;

/// Renders a report as one line for each of its parts, as editors and build logs read it:
/// `NAME:LINE:COLUMN: error: ..`.
///
/// Only `render_report`, `render`, and `debug` and `display` of `ReportHandler` allocate.
#[derive(Debug, Drop)]
pub struct BriefReportHandler {
    cause_chain: bool,
    form: BriefForm,
}

impl Model for BriefReportHandler {
    ghost use Rattle.miette_brief.specs.rules.Report.{BriefSettings};

    ghost Value = { BriefSettings };

    ghost view = { λ it. record { cause_chain = it.cause_chain; form = it.form } };
}

/// Same as `new`.
impl Default for BriefReportHandler {
    ghost use Rattle.std.specs.Prelude.{◌≡◌};
    ghost use Rattle.miette_brief.specs.rules.Report.{default_brief_settings};

    ghost is_default = { λ it. it ≡ default_brief_settings };

    fn default() -> Self {
        BriefReportHandler::new()
    }
}

impl BriefReportHandler {
    /// Creates a handler that prints causes, in the format of GCC.
    pub fn new() -> Self
        ensures { result ≡ default_brief_settings }
    {
        BriefReportHandler {
            cause_chain: true,
            form: BriefForm::Gcc,
        }
    }

    /// Prints the causes of each report.
    pub fn with_cause_chain(self) -> Self
        ensures { result ≡ record self { cause_chain = true } }
    {
        self.set_cause_chain(true)
    }

    /// Leaves out all causes.
    pub fn without_cause_chain(self) -> Self
        ensures { result ≡ record self { cause_chain = false } }
    {
        self.set_cause_chain(false)
    }

    fn set_cause_chain(self, cause_chain: bool) -> Self
        ensures { result ≡ record self { cause_chain = cause_chain } }
    {
        BriefReportHandler {
            cause_chain,
            form: self.form,
        }
    }

    /// Sets the output format.
    pub fn with_form(self, form: BriefForm) -> Self
        ensures { result ≡ record self { form = form } }
    {
        BriefReportHandler {
            cause_chain: self.cause_chain,
            form,
        }
    }

    fn shows_causes(&self) -> bool
        ensures { result ≡ self.now.cause_chain }
    {
        self.cause_chain
    }

    fn form(&self) -> BriefForm
        ensures { result ≡ self.now.form }
    {
        self.form
    }

    /// Appends the brief text of a report. If it fails, `out` is unchanged. Returns `Memory` if allocation fails.
    /// Returns `Refused` if a label of the report or of a related one is out of bounds, or if a source that doesn't
    /// always read refuses it. Labels of causes are never refused, nor are labels of reports related to a cause.
    pub fn render_report(&self, report: &Report, out: &mut String) -> Result<(), RenderError>
        // the text is one for answers that the sources can give
        ensures text { OnOk result (AppendsOne (IsBrief self.now
            (tree_of ⟦<Box<dyn Diagnostic> as Diagnostic>⟧.meaning ⟦<Box<dyn SourceCode> as SourceCode>⟧.source
            report.now)) (string_bytes out.old) (string_bytes out.new)) }
        // if every source of the report always reads, there is exactly one such text
        ensures only { OnOk result (AlwaysReads (tree_of ⟦<Box<dyn Diagnostic> as Diagnostic>⟧.meaning
            ⟦<Box<dyn SourceCode> as SourceCode>⟧.source report.now) →
            string_bytes out.new ≡ string_bytes out.old
            ++ brief self.now (tree_of ⟦<Box<dyn Diagnostic> as Diagnostic>⟧.meaning
            ⟦<Box<dyn SourceCode> as SourceCode>⟧.source report.now) unlisted) }
        ensures refused { (result ≡ Err RenderError.Refused) →
            report_in_bounds (tree_of ⟦<Box<dyn Diagnostic> as Diagnostic>⟧.meaning
            ⟦<Box<dyn SourceCode> as SourceCode>⟧.source report.now) ≡ false }
        ensures err { OnErr result (string_bytes out.new ≡ string_bytes out.old) }
    {
        self.render(report, out)
    }

    /// Same as `render_report`, for diagnostics and sources of any type.
    pub fn render<D: Diagnostic, S: SourceCode>(
        &self,
        report: &Report<D, S>,
        out: &mut String,
    ) -> Result<(), RenderError>
        ensures text { OnOk result (AppendsOne (IsBrief self.now (tree_of D.meaning S.source report.now))
            (string_bytes out.old) (string_bytes out.new)) }
        ensures only { OnOk result (AlwaysReads (tree_of D.meaning S.source report.now) →
            string_bytes out.new ≡ string_bytes out.old
            ++ brief self.now (tree_of D.meaning S.source report.now) unlisted) }
        ensures refused { (result ≡ Err RenderError.Refused) →
            report_in_bounds (tree_of D.meaning S.source report.now) ≡ false }
        ensures err { OnErr result (string_bytes out.new ≡ string_bytes out.old) }
    {
        append_report_text(out, self, report)
    }

    // Appends a report without its related reports.
    fn push_diagnostic<'a, D: Diagnostic, S: SourceCode>(
        &self,
        out: &mut String,
        report: &'a Report<D, S>,
        source: Option<SourceRef<'a, S>>,
        whole: &WholeSource<'a>,
    ) -> Result<(), RenderError>
        requires { IsWholeIn self.now.form (opt_ref_source S.source source) whole.now }
        ensures text { OnOk result (AppendsBriefDiagnostic self.now (opt_ref_source S.source source.entry)
            (head (tree_of D.meaning S.source report.now)) (cause_of (tree_of D.meaning S.source report.now))
            (string_bytes out.old) (string_bytes out.new)) }
        ensures refused { (result ≡ Err RenderError.Refused) → brief_labels_accepted
            (opt_ref_source S.source source.entry)
            (head (tree_of D.meaning S.source report.now)) ≡ false }
    {
        let chain = self.shows_causes();
        match self.form() {
            BriefForm::Gcc => push_diagnostic(out, chain, report, source),
            BriefForm::Github => push_command(out, chain, report, source, whole),
        }
    }

    // Reads the report's own source as a whole, if it has one and the format needs it.
    fn read_own_source<'a, D: Diagnostic, S: SourceCode>(
        &self,
        alloc: Global,
        report: &'a Report<D, S>,
    ) -> Result<Option<WholeSource<'a>>, AllocError>
        ensures { IfOk result (λ own. IsOwnIn self.now.form
            (source_of (tree_of D.meaning S.source report.now)) own) }
    {
        match self.form() {
            BriefForm::Gcc => Ok(None),
            BriefForm::Github => read_own_source(alloc, report),
        }
    }

    // Appends a report. `inherited` is the source of the report above.
    #[cycle(report)]
    fn push_report<'a, D: Diagnostic, S: SourceCode>(
        &self,
        out: &mut String,
        report: &'a Report<D, S>,
        inherited: Option<SourceRef<'a, S>>,
        whole: &WholeSource<'a>,
    ) -> Result<(), RenderError>
        requires { IsWholeIn self.now.form (opt_ref_source S.source inherited) whole.now }
        ensures text { OnOk result (AppendsBriefReport self.now (opt_ref_source S.source inherited.entry)
            (tree_of D.meaning S.source report.now) (string_bytes out.old) (string_bytes out.new)) }
        ensures refused { (result ≡ Err RenderError.Refused) →
            report_passes accepts (opt_ref_source S.source inherited.entry) (tree_of D.meaning S.source report.now)
            ≡ false }
    {
        let source = effective_source(report, inherited);
        let own = self.read_own_source(*out.allocator(), report)?;
        let whole = own_or_inherited(&own, &*whole);
        self.push_diagnostic(out, report, source, whole)?;
        self.push_related(out, report.related(), source, whole)
    }

    // Appends related reports below a report with this source.
    #[cycle(report)]
    fn push_related<'a, D: Diagnostic, S: SourceCode>(
        &self,
        out: &mut String,
        reports: &'a [Report<D, S>],
        source: Option<SourceRef<'a, S>>,
        whole: &WholeSource<'a>,
    ) -> Result<(), RenderError>
        requires { IsWholeIn self.now.form (opt_ref_source S.source source) whole.now }
        ensures text { OnOk result (AppendsBriefRelated self.now (opt_ref_source S.source source.entry)
            (trees (map (tree_of D.meaning S.source) reports.now)) (string_bytes out.old) (string_bytes out.new)) }
        ensures refused { (result ≡ Err RenderError.Refused) → reports_pass accepts
            (opt_ref_source S.source source.entry)
            (trees (map (tree_of D.meaning S.source) reports.now)) ≡ false }
    {
        for report in reports {
            self.push_report(out, report, source, &*whole)?;
        }
        Ok(())
    }
}

impl TextHandler for BriefReportHandler {
    ghost texts = { IsBrief };

    ghost refusals = { λ _ tree. report_in_bounds tree ≡ false };

    fn text_of<D: Diagnostic, S: SourceCode>(
        &self,
        alloc: Global,
        report: &Report<D, S>,
    ) -> Result<String, RenderError> {
        let mut text = String::new(alloc);
        self.push_report(&mut text, report, None, &WholeSource::Nowhere)?;
        Ok(text)
    }
}
