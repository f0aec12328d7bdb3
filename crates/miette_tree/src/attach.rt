//! Adds labels over further sources, and fixes, to a report.
ghost use Rattle.std.specs.Prelude.{◌≡◌, IfOk, map};

use crate::attachments::{Snippets, attachments_or_new};
use crate::owned::OwnedSource;
use crate::tree::Report;
use miette_fixes::fix::Fix;
use miette_protocol::protocol::{Diagnostic, LabeledSpan};
use miette_protocol::source::SourceCode;
use std::alloc::{AllocError, Global};

/// Builders and getters for labels over further sources and for fixes. A builder that returns `AllocError` drops the
/// report and its argument.
impl<D: Diagnostic, S: SourceCode> Report<D, S> {
    ghost use Rattle.miette_tree.specs.rules.Tree.{head, with_snippets, with_all_snippets};
    ghost use Rattle.miette_tree.specs.rules.Tree.{with_fix, with_fixes};
    ghost use Rattle.miette_tree.specs.views.Attachments.{section_of};
    ghost use Rattle.miette_tree.specs.views.Kind.{internals_of};
    ghost use Rattle.miette_tree.specs.views.Owned.{owned_source};
    ghost use Rattle.miette_tree.specs.views.Report.{tree_of};

    /// Appends labels over a further source to those that the report has. Other reports do not inherit that source.
    ///
    /// # Errors
    /// `AllocError` if allocation fails. The report is then dropped.
    pub fn with_snippets(
        self,
        alloc: Global,
        source: S,
        labels: Vec<LabeledSpan>,
    ) -> Result<Report<D, S>, AllocError>
        ensures tree { IfOk result (λ r. tree_of D.meaning S.source r
            ≡ with_snippets (record { source = S.source source; labels = labels.items })
            (tree_of D.meaning S.source self)) }
        ensures held { IfOk result (λ r. internals_of r ≡ internals_of self) }
    {
        self.with_section(alloc, Snippets::over(source, labels))
    }

    /// Like `with_snippets`, with a source that the report owns.
    ///
    /// # Errors
    /// `AllocError` if allocation fails. The report is then dropped.
    pub fn with_owned_snippets(
        self,
        alloc: Global,
        source: OwnedSource,
        labels: Vec<LabeledSpan>,
    ) -> Result<Report<D, S>, AllocError>
        ensures tree { IfOk result (λ r. tree_of D.meaning S.source r
            ≡ with_snippets (record { source = owned_source source; labels = labels.items })
            (tree_of D.meaning S.source self)) }
        ensures held { IfOk result (λ r. internals_of r ≡ internals_of self) }
    {
        self.with_section(alloc, Snippets::over_owned(source, labels))
    }

    /// Replaces the labels over further sources.
    ///
    /// # Errors
    /// `AllocError` if allocation fails. The report is then dropped.
    pub fn with_all_snippets(
        self,
        alloc: Global,
        list: Vec<Snippets<S>>,
    ) -> Result<Report<D, S>, AllocError>
        ensures tree { IfOk result (λ r. tree_of D.meaning S.source r
            ≡ with_all_snippets (map (section_of S.source) list.items) (tree_of D.meaning S.source self)) }
        ensures held { IfOk result (λ r. internals_of r ≡ internals_of self) }
    {
        let mut report = self;
        let mut attached = attachments_or_new(alloc, report.attached.take())?;
        attached.snippets = list;
        report.attached = Some(attached);
        Ok(report)
    }

    fn with_section(self, alloc: Global, section: Snippets<S>) -> Result<Report<D, S>, AllocError>
        ensures tree { IfOk result (λ r. tree_of D.meaning S.source r
            ≡ with_snippets (section_of S.source section) (tree_of D.meaning S.source self)) }
        ensures held { IfOk result (λ r. internals_of r ≡ internals_of self) }
    {
        let mut report = self;
        let mut attached = attachments_or_new(alloc, report.attached.take())?;
        attached.snippets.push(section)?;
        report.attached = Some(attached);
        Ok(report)
    }

    /// Appends a fix. A fix edits the report's source: its own, or the inherited one.
    ///
    /// # Errors
    /// `AllocError` if allocation fails. The report is then dropped.
    pub fn with_fix(self, alloc: Global, fix: Fix) -> Result<Report<D, S>, AllocError>
        ensures tree { IfOk result (λ r. tree_of D.meaning S.source r
            ≡ with_fix fix (tree_of D.meaning S.source self)) }
        ensures held { IfOk result (λ r. internals_of r ≡ internals_of self) }
    {
        let mut report = self;
        let mut attached = attachments_or_new(alloc, report.attached.take())?;
        attached.fixes.push(fix)?;
        report.attached = Some(attached);
        Ok(report)
    }

    /// Replaces the fixes.
    ///
    /// # Errors
    /// `AllocError` if allocation fails. The report is then dropped.
    pub fn with_fixes(self, alloc: Global, list: Vec<Fix>) -> Result<Report<D, S>, AllocError>
        ensures tree { IfOk result (λ r. tree_of D.meaning S.source r
            ≡ with_fixes list.items (tree_of D.meaning S.source self)) }
        ensures held { IfOk result (λ r. internals_of r ≡ internals_of self) }
    {
        let mut report = self;
        let mut attached = attachments_or_new(alloc, report.attached.take())?;
        attached.fixes = list;
        report.attached = Some(attached);
        Ok(report)
    }

    /// Returns the labels over further sources, in the order in which they were added. Does not allocate.
    pub fn further_snippets(&self) -> &[Snippets<S>]
        ensures { map (section_of S.source) result.now ≡ (head (tree_of D.meaning S.source self.now)).snippets }
    {
        match &self.attached {
            Some(attached) => attached.snippets.as_slice(),
            None => &[],
        }
    }

    /// Returns the fixes, in the order in which they were added. Does not allocate.
    pub fn fixes(&self) -> &[Fix]
        ensures { result.now ≡ (head (tree_of D.meaning S.source self.now)).fixes }
    {
        match &self.attached {
            Some(attached) => attached.fixes.as_slice(),
            None => &[],
        }
    }
}
