//! The labels of a diagnostic over all of its sources, and the primary one among them.

ghost use Rattle.std.specs.Prelude.{◌≡◌, ◌<◌, ◌∷◌, ◌++◌, [], false, OnOk, IfOk, map, length, position, Some};
ghost use Rattle.std.specs.List.{All};
ghost use Rattle.miette_tree.specs.views.Attachments.{section_of};
ghost use Rattle.miette_tree.specs.views.Owned.{opt_ref_source};
ghost use Rattle.miette_tree.specs.views.Report.{tree_of};
ghost use Rattle.miette_tree.specs.rules.Tree.{head};
ghost use Rattle.miette_tree.specs.rules.DiagnosticParts.{given_labels};
ghost use Rattle.miette_tree.specs.rules.Reads.{accepts, further_pass};
ghost use Rattle.miette_labels.specs.rules.Groups.{in_order};
ghost use Rattle.miette_labels.specs.views.Turns.{ordered_labels};
ghost use Rattle.miette_brief.specs.rules.LocatedLabels.{further_labels, is_marked, is_placed, located_label, marks};
ghost use Rattle.miette_brief.specs.rules.LocatedLabels.{is_wanted, primary_at as primary_index};
ghost use Rattle.miette_brief.specs.rules.PossibleAnswers.{HasAccepted, FurtherAccepted};
ghost use Rattle.miette_brief.specs.steps.CommandParts.{located_label_of};
ghost use Rattle.miette_brief.specs.steps.Reads.{brief_labels_accepted};

use crate::locations::label_location;
use crate::primary::label_of;
use miette_labels::order::{OrderedLabel, order_by_offset};
use miette_protocol::error::RenderError;
use miette_protocol::protocol::{Diagnostic, LabeledSpan};
use miette_protocol::source::{START, SourceCode};
use miette_tree::parts::labels_of;
use miette_tree::report::{Report, Snippets, SourceRef};
use std::alloc::{AllocError, Global};

/// A label and its source, if it has one.
#[derive_where(Clone, Copy)]
#[derive(Drop)]
pub(crate) struct LocatedLabel<'a, S> {
    pub(crate) source: Option<SourceRef<'a, S>>,
    pub(crate) label: &'a LabeledSpan,
}

/// Appends a label.
fn push_located_label<'a, S: SourceCode>(
    marks: &mut Vec<LocatedLabel<'a, S>>,
    mark: LocatedLabel<'a, S>,
) -> Result<(), AllocError>
    ensures { OnOk result (map (located_label_of S.source) marks.new.items
        ≡ map (located_label_of S.source) marks.old.items ++ located_label_of S.source mark.entry ∷ []) }
{
    marks.push(mark)?;
    Ok(())
}

/// Appends labels in this order. Returns `Refused` if one can't be read. Each is read near the one before.
fn push_located_labels<'a, S: SourceCode>(
    marks: &mut Vec<LocatedLabel<'a, S>>,
    source: Option<SourceRef<'a, S>>,
    labels: &'a [LabeledSpan],
    order: &[OrderedLabel],
) -> Result<(), RenderError>
    requires inside { All (λ turn. turn.index < length labels.now) order.now }
    ensures marks { OnOk result (map (located_label_of S.source) marks.new.items
        ≡ map (located_label_of S.source) marks.old.items
        ++ map (located_label (opt_ref_source S.source source.entry)) (ordered_labels labels.now order.now)) }
    ensures accepted { OnOk result (HasAccepted (opt_ref_source S.source source.entry)
        (ordered_labels labels.now order.now)) }
    ensures refused { (result ≡ Err RenderError.Refused) →
        accepts (opt_ref_source S.source source.entry) (ordered_labels labels.now order.now) ≡ false }
{
    let mut known = START;
    for turn in order {
        let label = label_of(labels, *turn);
        label_location(source, label.inner(), &mut known)?;
        push_located_label(marks, LocatedLabel { source, label })?;
    }
    Ok(())
}

/// Appends labels by offset. Returns `Refused` if one can't be read.
fn push_sorted_labels<'a, S: SourceCode>(
    marks: &mut Vec<LocatedLabel<'a, S>>,
    source: Option<SourceRef<'a, S>>,
    labels: &'a [LabeledSpan],
) -> Result<(), RenderError>
    ensures marks { OnOk result (map (located_label_of S.source) marks.new.items
        ≡ map (located_label_of S.source) marks.old.items
        ++ map (located_label (opt_ref_source S.source source.entry)) (in_order labels.now)) }
    ensures accepted { OnOk result (HasAccepted (opt_ref_source S.source source.entry) (in_order labels.now)) }
    ensures refused { (result ≡ Err RenderError.Refused) →
        accepts (opt_ref_source S.source source.entry) (in_order labels.now) ≡ false }
{
    let order = order_by_offset(*marks.allocator(), labels)?;
    push_located_labels(marks, source, labels, &order)
}

/// Appends the labels of further sources. Returns `Refused` if one can't be read.
fn push_further_labels<'a, S: SourceCode>(
    marks: &mut Vec<LocatedLabel<'a, S>>,
    further: &'a [Snippets<S>],
) -> Result<(), RenderError>
    ensures marks { OnOk result (map (located_label_of S.source) marks.new.items
        ≡ map (located_label_of S.source) marks.old.items
        ++ further_labels (map (section_of S.source) further.now)) }
    ensures accepted { OnOk result (FurtherAccepted (map (section_of S.source) further.now)) }
    ensures refused { (result ≡ Err RenderError.Refused) →
        further_pass accepts (map (section_of S.source) further.now) ≡ false }
{
    for section in further {
        push_sorted_labels(marks, Some(section.source()), section.labels())?;
    }
    Ok(())
}

/// Returns the labels of a report: those of its source, then those of further sources. Returns `Refused` if one can't
/// be read.
pub(crate) fn located_labels_of<'a, D: Diagnostic, S: SourceCode>(
    alloc: Global,
    report: &'a Report<D, S>,
    source: Option<SourceRef<'a, S>>,
) -> Result<Vec<LocatedLabel<'a, S>>, RenderError>
    ensures marks { IfOk result (λ its. map (located_label_of S.source) its.items
        ≡ marks (opt_ref_source S.source source.entry) (head (tree_of D.meaning S.source report.now))) }
    ensures accepted { OnOk result (HasAccepted (opt_ref_source S.source source.entry)
        (in_order (given_labels (head (tree_of D.meaning S.source report.now)).labels))
        × FurtherAccepted (head (tree_of D.meaning S.source report.now)).snippets) }
    ensures refused { (result ≡ Err RenderError.Refused) →
        brief_labels_accepted (opt_ref_source S.source source.entry) (head (tree_of D.meaning S.source report.now))
        ≡ false }
{
    let mut marks = Vec::new(alloc);
    push_sorted_labels(&mut marks, source, labels_of(report))?;
    push_further_labels(&mut marks, report.further_snippets())?;
    Ok(marks)
}

/// Whether a label has a source.
fn is_placed<S: SourceCode>(it: &LocatedLabel<'_, S>) -> bool
    ensures { result ≡ is_placed (located_label_of S.source it.now) }
{
    it.source.is_some()
}

/// Whether a label has a source and is primary.
fn is_marked<S: SourceCode>(it: &LocatedLabel<'_, S>) -> bool
    ensures { result ≡ is_marked (located_label_of S.source it.now) }
{
    it.source.is_some() && it.label.primary()
}

/// Whether a label has a source. If `marked` is set, it must also be primary.
fn is_wanted<S: SourceCode>(it: &LocatedLabel<'_, S>, marked: bool) -> bool
    ensures { result ≡ is_wanted marked (located_label_of S.source it.now) }
{
    if marked { is_marked(it) } else { is_placed(it) }
}

/// Index of the first such label, if there is one.
fn first_at<S: SourceCode>(marks: &[LocatedLabel<'_, S>], marked: bool) -> Option<usize>
    ensures { result ≡ position (is_wanted marked) (map (located_label_of S.source) marks.now) }
{
    let mut at = 0;
    for mark in marks {
        if is_wanted(mark, marked) {
            return Some(at);
        }
        at += 1;
    }
    None
}

/// Index of the primary label, if there is one.
pub(crate) fn primary_at<S: SourceCode>(marks: &[LocatedLabel<'_, S>]) -> Option<usize>
    ensures { result ≡ primary_index (map (located_label_of S.source) marks.now) }
{
    match first_at(marks, true) {
        Some(at) => Some(at),
        None => first_at(marks, false),
    }
}
