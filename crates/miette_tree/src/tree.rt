//! The report type: a diagnostic, its source and cause, and related reports.
ghost use Rattle.std.specs.Prelude.{◌≡◌, IfOk, IfErr, OnOk, OnErr, map, string_bytes};
ghost use Rattle.std.specs.Option.{option_copied, option_map};

use crate::attachments::Attachments;
use crate::cause_texts::{CauseTexts, push_copies, push_copy};
use crate::innermost::{Innermost, ReportKind};
use crate::owned::{OwnedSource, ReportSource, SourceRef};
use miette_protocol::diagnostic::MietteDiagnostic;
use miette_protocol::protocol::{Diagnostic, LabeledSpan, Severity};
use miette_protocol::source::SourceCode;
use std::alloc::{AllocError, Global};
use std::fmt::Display;

/// A report: a diagnostic (message, code, severity, help, url, labels), the source of its labels, labels over further
/// sources, fixes, a cause, and related reports.
///
/// Programs write `Report`. The type parameters are the boxes for diagnostics and sources.
pub struct Report<D = Box<dyn Diagnostic>, S = Box<dyn SourceCode>> {
    front: Option<Box<String>>,
    innermost: Innermost<D>,
    source: Option<ReportSource<S>>,
    pub(crate) attached: Option<Box<Attachments<S>>>,
    cause: OwnedCause<Report<D, S>>,
    related: Option<Vec<Report<D, S>>>,
}

#[derive(Drop)]
enum OwnedCause<R> {
    None,
    Diagnostic(Box<R>),
    Texts(CauseTexts),
}

/// Drops causes in a loop, so a long chain needs no more stack than a short one. Nested related reports are dropped
/// recursively.
impl<D: Drop, S: Drop> Drop for Report<D, S> {
    #[cycle(reports)]
    fn drop(mut self) {
        loop {
            let Report {
                front: _,
                innermost: _,
                source: _,
                attached: _,
                cause,
                related,
            } = self;
            drop_related(related);
            match cause {
                OwnedCause::Diagnostic(next) => self = Box::into_inner(next),
                OwnedCause::Texts(_) => return,
                OwnedCause::None => return,
            }
        }
    }
}

// Drops related reports.
#[cycle(reports)]
fn drop_related<D: Drop, S: Drop>(related: Option<Vec<Report<D, S>>>) {
    drop(related);
}

/// The cause of a report.
#[derive_where(Clone, Copy)]
pub enum Cause<'a, D = Box<dyn Diagnostic>, S = Box<dyn SourceCode>> {
    /// No cause, or an empty list of texts.
    None,
    /// A report.
    Diagnostic(&'a Report<D, S>),
    /// Texts, the nearest first. The list isn't empty.
    Texts(&'a [String]),
}

/// Constructors and builders, for boxes of any type.
impl<D: Diagnostic, S: SourceCode> Report<D, S> {
    ghost use Rattle.miette_protocol.specs.views.Diagnostic.{meaning_of, message_alone};
    ghost use Rattle.miette_tree.specs.rules.Diagnosis.{plain_diagnosis};
    ghost use Rattle.miette_tree.specs.rules.Tree.{single_report, texts, diagnostic, trees, wrapped_tree, with_source};
    ghost use Rattle.miette_tree.specs.rules.Tree.{with_cause};
    ghost use Rattle.miette_tree.specs.rules.Tree.{with_related, chain_of};
    ghost use Rattle.miette_tree.specs.views.Report.{tree_of, innermost_meaning};
    ghost use Rattle.miette_tree.specs.views.Owned.{owned_source, kept_source};
    ghost use Rattle.miette_tree.specs.views.Kind.{internals_of, internals_alone, kind_of, innermost_kind, built};
    ghost use Rattle.miette_tree.specs.views.Kind.{message};
    ghost use Rattle.miette_tree.specs.rules.WrapErr.{Prints};

    pub(crate) fn from_innermost(innermost: Innermost<D>) -> Report<D, S>
        ensures tree { tree_of D.meaning S.source result
            ≡ single_report (plain_diagnosis (innermost_meaning D.meaning innermost)) }
        ensures held { internals_of result ≡ internals_alone (innermost_kind innermost) }
    {
        Report {
            front: None,
            innermost,
            source: None,
            attached: None,
            cause: OwnedCause::None,
            related: None,
        }
    }

    /// Like `Report::new`, for boxes of any type. Does not allocate.
    pub fn built(diagnostic: MietteDiagnostic) -> Report<D, S>
        ensures tree { tree_of D.meaning S.source result ≡ single_report (plain_diagnosis (meaning_of diagnostic)) }
        ensures kind { kind_of result ≡ built diagnostic }
    {
        Report::from_innermost(Innermost::Built(diagnostic))
    }

    /// Creates a report with a message and nothing else.
    pub(crate) fn of_text(text: String) -> Report<D, S>
        ensures tree { tree_of D.meaning S.source result ≡ single_report (plain_diagnosis
            (message_alone (string_bytes text))) }
        ensures kind { kind_of result ≡ message }
    {
        Report::from_innermost(Innermost::Message(text))
    }

    /// Creates a report whose message is an error's printed text.
    pub(crate) fn of_display<E: Display + Drop>(
        alloc: Global,
        error: E,
    ) -> Result<Report<D, S>, AllocError>
        ensures { IfOk result (Prints D.meaning S.source (E.output error)) }
    {
        Ok(Report::of_text(format!(in alloc; "{error}")?))
    }

    /// Sets the source if the report has none; a report that has one keeps it. Does not allocate.
    pub fn with_source_code(self, source: S) -> Report<D, S>
        ensures tree { tree_of D.meaning S.source result
            ≡ with_source (S.source source) (tree_of D.meaning S.source self) }
        ensures held { internals_of result ≡ internals_of self }
    {
        self.with_kept(ReportSource::Boxed(source))
    }

    /// Sets the source if the report has none; a report that has one keeps it. Does not allocate.
    pub fn with_owned_source(self, source: OwnedSource) -> Report<D, S>
        ensures tree { tree_of D.meaning S.source result
            ≡ with_source (owned_source source) (tree_of D.meaning S.source self) }
        ensures held { internals_of result ≡ internals_of self }
    {
        self.with_kept(ReportSource::Owned(source))
    }

    fn with_kept(self, place: ReportSource<S>) -> Report<D, S>
        ensures tree { tree_of D.meaning S.source result
            ≡ with_source (kept_source S.source place) (tree_of D.meaning S.source self) }
        ensures held { internals_of result ≡ internals_of self }
    {
        let Report {
            front,
            innermost,
            source,
            attached,
            cause,
            related,
        } = self;
        Report {
            front,
            innermost,
            source: Some(source.unwrap_or(place)),
            attached,
            cause,
            related,
        }
    }

    /// Replaces the cause by these texts, the nearest first. An empty list removes the cause. Does not allocate.
    pub fn with_cause_texts(self, list: Vec<String>) -> Report<D, S>
        ensures tree { tree_of D.meaning S.source result
            ≡ with_cause (texts (map string_bytes list.items)) (tree_of D.meaning S.source self) }
        ensures held { internals_of result ≡ record (internals_of self) { cause = None } }
    {
        let mut report = self;
        report.cause = OwnedCause::Texts(CauseTexts::new(list));
        report
    }

    /// Replaces the cause by a report. If allocation fails, returns both reports unchanged: this one, then the cause. A
    /// chain may have any length; it is rendered and dropped by loops.
    pub fn with_diagnostic_cause(
        self,
        alloc: Global,
        cause: Report<D, S>,
    ) -> Result<Report<D, S>, (Report<D, S>, Report<D, S>)>
        ensures tree { IfOk result (λ r. tree_of D.meaning S.source r
            ≡ with_cause (diagnostic (tree_of D.meaning S.source cause)) (tree_of D.meaning S.source self)) }
        ensures held { IfOk result (λ r. internals_of r ≡ record (internals_of self) { cause = Some cause }) }
        ensures err { IfErr result (λ both. both ≡ (self, cause)) }
    {
        let mut report = self;
        match Box::new(alloc, cause) {
            Ok(boxed) => {
                report.cause = OwnedCause::Diagnostic(boxed);
                Ok(report)
            }
            Err(refused) => Err((report, refused.value)),
        }
    }

    /// Replaces the related reports. Does not allocate. The list may have any length. Nested related reports use stack
    /// for each level: 2.4 KB in the graphical handler, less in the others, and 0.8 KB when dropped. 1 MB of stack is
    /// enough for about 400 levels.
    pub fn with_related(self, list: Vec<Report<D, S>>) -> Report<D, S>
        ensures tree { tree_of D.meaning S.source result
            ≡ with_related (trees (map (tree_of D.meaning S.source) list.items)) (tree_of D.meaning S.source self) }
        ensures held { internals_of result ≡ record (internals_of self) { related = list.items } }
    {
        let mut report = self;
        report.related = Some(list);
        report
    }

    /// Puts a message in front. The old chain becomes the cause texts; everything else is unchanged. If allocation
    /// fails, returns the report unchanged.
    pub fn wrap_err(self, alloc: Global, message: &str) -> Result<Report<D, S>, Report<D, S>>
        ensures tree { IfOk result (λ r. tree_of D.meaning S.source r
            ≡ wrapped_tree message.now (tree_of D.meaning S.source self)) }
        ensures held { IfOk result (λ r. internals_of r ≡ record (internals_of self) { cause = None }) }
        ensures err { IfErr result (λ r. r ≡ self) }
    {
        let Ok(front) = String::from_str(alloc, message) else {
            return Err(self);
        };
        self.wrap_err_owned(alloc, front)
    }

    /// Like `wrap_err`, with an owned message.
    pub(crate) fn wrap_err_owned(
        self,
        alloc: Global,
        front: String,
    ) -> Result<Report<D, S>, Report<D, S>>
        ensures tree { IfOk result (λ r. tree_of D.meaning S.source r
            ≡ wrapped_tree (string_bytes front) (tree_of D.meaning S.source self)) }
        ensures held { IfOk result (λ r. internals_of r ≡ record (internals_of self) { cause = None }) }
        ensures err { IfErr result (λ r. r ≡ self) }
    {
        let Ok(front) = Box::new(alloc, front) else {
            return Err(self);
        };
        let mut report = self;
        match report.chain_becomes_causes(alloc) {
            Ok(()) => {
                report.front = Some(front);
                Ok(report)
            }
            Err(_) => Err(report),
        }
    }

    /// Like `wrap_err`.
    pub fn context(self, alloc: Global, message: &str) -> Result<Report<D, S>, Report<D, S>>
        ensures tree { IfOk result (λ r. tree_of D.meaning S.source r
            ≡ wrapped_tree message.now (tree_of D.meaning S.source self)) }
        ensures held { IfOk result (λ r. internals_of r ≡ record (internals_of self) { cause = None }) }
        ensures err { IfErr result (λ r. r ≡ self) }
    {
        self.wrap_err(alloc, message)
    }

    /// Replaces the cause by the texts of the chain. If the causes are texts already, only the message is copied.
    fn chain_becomes_causes(&mut self, alloc: Global) -> Result<(), AllocError>
        ensures tree { OnOk result (tree_of D.meaning S.source self.new
            ≡ with_cause (texts (chain_of (tree_of D.meaning S.source self.old)))
            (tree_of D.meaning S.source self.old)) }
        ensures held { OnOk result (internals_of self.new ≡ record (internals_of self.old) { cause = None }) }
        ensures err { OnErr result (self.new ≡ self.old) }
    {
        let message = String::from_str(alloc, self.message())?;
        if let OwnedCause::Texts(texts) = &mut self.cause {
            return texts.push_front(alloc, message);
        }
        self.cause = OwnedCause::Texts(CauseTexts::new(self.chain_texts(alloc)?));
        Ok(())
    }

    /// Copies the texts of the chain.
    fn chain_texts(&self, alloc: Global) -> Result<Vec<String>, AllocError>
        ensures { IfOk result (λ list. map string_bytes list.items ≡ chain_of (tree_of D.meaning S.source self.now)) }
    {
        let mut list = Vec::new(alloc);
        push_copy(&mut list, alloc, self.message())?;
        let mut at = self;
        while let OwnedCause::Diagnostic(next) = &at.cause {
            at = next;
            push_copy(&mut list, alloc, at.message())?;
        }
        if let OwnedCause::Texts(texts) = &at.cause {
            push_copies(&mut list, alloc, texts.as_slice())?;
        }
        Ok(list)
    }
}

/// Getters. They do not allocate.
impl<D: Diagnostic, S: SourceCode> Report<D, S> {
    ghost use Rattle.miette_tree.specs.rules.Tree.{head, source_of, cause_of, related_of, trees};
    ghost use Rattle.miette_tree.specs.views.Report.{tree_of, cause_view, IsNoEmptyList};
    ghost use Rattle.miette_tree.specs.views.Owned.{ref_source};
    ghost use Rattle.miette_tree.specs.views.Kind.{internals_of, kind_of, kind_view, cause_report_view};

    /// Returns the message: the one that `wrap_err` added last, or else the message of the original error.
    pub fn message(&self) -> &str
        ensures { result.now ≡ (head (tree_of D.meaning S.source self.now)).message }
    {
        match &self.front {
            Some(text) => text.as_str(),
            None => self.innermost.message(),
        }
    }

    /// Returns the error code.
    pub fn code(&self) -> Option<&str>
        ensures { option_copied result ≡ (head (tree_of D.meaning S.source self.now)).code }
    {
        self.innermost.code()
    }

    /// Returns the severity.
    pub fn severity(&self) -> Option<Severity>
        ensures { result ≡ (head (tree_of D.meaning S.source self.now)).severity }
    {
        self.innermost.severity()
    }

    /// Returns the help text.
    pub fn help(&self) -> Option<&str>
        ensures { option_copied result ≡ (head (tree_of D.meaning S.source self.now)).help }
    {
        self.innermost.help()
    }

    /// Returns the URL of further documentation.
    pub fn url(&self) -> Option<&str>
        ensures { option_copied result ≡ (head (tree_of D.meaning S.source self.now)).url }
    {
        self.innermost.url()
    }

    /// Returns the labels over the report's source.
    pub fn labels(&self) -> Option<&[LabeledSpan]>
        ensures { option_copied result ≡ (head (tree_of D.meaning S.source self.now)).labels }
    {
        self.innermost.labels()
    }

    /// Returns the report's own source.
    pub fn source_code(&self) -> Option<SourceRef<'_, S>>
        ensures { option_map (ref_source S.source) result ≡ source_of (tree_of D.meaning S.source self.now) }
    {
        match &self.source {
            Some(place) => Some(SourceRef::to(place)),
            None => None,
        }
    }

    /// Returns the cause.
    pub fn cause(&self) -> Cause<'_, D, S>
        ensures value { cause_view D.meaning S.source result ≡ cause_of (tree_of D.meaning S.source self.now) }
        // An empty list of texts counts as no cause.
        ensures nonempty { IsNoEmptyList result }
        ensures report { cause_report_view result ≡ (internals_of self.now).cause }
    {
        match &self.cause {
            OwnedCause::None => Cause::None,
            OwnedCause::Diagnostic(report) => Cause::Diagnostic(report),
            OwnedCause::Texts(list) => {
                let list = list.as_slice();
                if list.is_empty() {
                    Cause::None
                } else {
                    Cause::Texts(list)
                }
            }
        }
    }

    /// Returns the related reports.
    pub fn related(&self) -> &[Report<D, S>]
        ensures value { trees (map (tree_of D.meaning S.source) result.now)
            ≡ related_of (tree_of D.meaning S.source self.now) }
        ensures reports { result.now ≡ (internals_of self.now).related }
    {
        match &self.related {
            Some(list) => list.as_slice(),
            None => &[],
        }
    }

    /// Returns what the report was created from. Messages that `wrap_err` added do not change it.
    pub fn kind(&self) -> ReportKind<'_, D>
        ensures { kind_view result ≡ kind_of self.now }
    {
        self.innermost.kind()
    }
}
