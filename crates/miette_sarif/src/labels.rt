//! Labels of a report as SARIF locations: the primary one, and all others by source and offset.

ghost use Rattle.std.specs.Prelude.{◌≡◌, ◌++◌, None, OnOk, map, position};
ghost use Rattle.std.specs.Option.{option_map};
ghost use Rattle.miette_labels.specs.rules.Groups.{in_order};
ghost use Rattle.miette_sarif.specs.rules.Marks.{mark_over, mark_or, marks_from, marks_in, says_something};
ghost use Rattle.miette_sarif.specs.rules.Marks.{marks_of, pick, pick_in, primary_in};
ghost use Rattle.miette_sarif.specs.steps.Picking.{is_asked};
ghost use Rattle.miette_sarif.specs.views.Findings.{mark_of};
ghost use Rattle.miette_sarif.specs.views.Grouped.{group_of, groups_in, labels_in};
ghost use Rattle.miette_sarif.specs.views.Sources.{over_of};

use crate::finding::SarifLocation;
use crate::snapshots::SourceSnapshot;
use miette_protocol::protocol::LabeledSpan;
use std::alloc::AllocError;

/// The labels of one source (or of none), sorted by offset.
#[derive(Drop)]
pub(crate) struct SourceLabels<'s, 'a> {
    pub(crate) seen: Option<&'s SourceSnapshot<'a>>,
    pub(crate) labels: Vec<&'a LabeledSpan>,
}

// Creates the location of a label, over a source or over none.
fn mark_over<'a>(seen: Option<&SourceSnapshot<'a>>, label: &'a LabeledSpan) -> SarifLocation<'a>
    ensures { mark_of result ≡ mark_over (over_of seen.entry) label.now }
{
    let text = label.label().unwrap_or("");
    match seen {
        Some(seen) => SarifLocation {
            place: Some(seen.place(*label.inner())),
            text,
        },
        None => SarifLocation { place: None, text },
    }
}

// Index of the first label, or of the first one marked as primary.
fn first_of(labels: &[&LabeledSpan], marked: bool) -> Option<usize>
    ensures { result ≡ position (λ l. is_asked marked l.now) labels.now }
{
    labels.iter().position(|label| !marked || label.primary())
}

// Removes the first label, or the first one marked as primary, from a group with a source.
fn take_from<'a>(group: &mut SourceLabels<'_, 'a>, marked: bool) -> Option<SarifLocation<'a>>
    ensures picked { pick_in (is_asked marked) (group_of group.old)
        ≡ option_map (λ mark. (mark_of mark, group_of group.new)) result }
    ensures stays { result ≡ None → group.new ≡ group.old }
{
    let seen = group.seen?;
    let at = first_of(&group.labels, marked)?;
    let label = group.labels.remove(at);
    Some(mark_over(Some(seen), label))
}

// Removes the first label, or the first one marked as primary, from the first group that has one.
fn take_first<'a>(groups: &mut [SourceLabels<'_, 'a>], marked: bool) -> Option<SarifLocation<'a>>
    ensures picked { pick (is_asked marked) (groups_in groups.old)
        ≡ option_map (λ mark. record { mark = mark_of mark; others = groups_in groups.new }) result }
    ensures stays { result ≡ None → groups.new ≡ groups.old }
{
    for group in groups.iter_mut() {
        if let Some(mark) = take_from(group, marked) {
            return Some(mark);
        }
    }
    None
}

/// Removes the primary label: the first marked one in the order of sources, else the first label of the first source
/// that has one.
pub(crate) fn take_primary<'a>(groups: &mut [SourceLabels<'_, 'a>]) -> Option<SarifLocation<'a>>
    ensures picked { primary_in (groups_in groups.old)
        ≡ option_map (λ mark. record { mark = mark_of mark; others = groups_in groups.new }) result }
    ensures stays { result ≡ None → groups.new ≡ groups.old }
{
    match take_first(groups, true) {
        Some(mark) => Some(mark),
        None => take_first(groups, false),
    }
}

/// The primary location: that of the primary label, else the report's source, if it has one.
pub(crate) fn primary_or<'a>(
    primary: Option<SarifLocation<'a>>,
    seen: Option<&SourceSnapshot<'a>>,
) -> Option<SarifLocation<'a>>
    ensures { option_map mark_of result ≡ mark_or (option_map mark_of primary.entry) (over_of seen.entry) }
{
    if primary.is_some() {
        return primary;
    }
    let seen = seen?;
    Some(SarifLocation {
        place: Some(seen.without_region()),
        text: "",
    })
}

/// Sorts labels by offset. Labels with equal offsets keep their order.
pub(crate) fn sort(labels: &mut Vec<&LabeledSpan>) -> Result<(), AllocError>
    ensures { OnOk result (labels_in labels.new.items ≡ in_order (labels_in labels.old.items)) }
{
    labels.sort_by_key(|label| label.offset())
}

// Whether a location has a place or a text.
fn says_something(mark: &SarifLocation<'_>) -> bool
    ensures { result ≡ says_something (mark_of mark.now) }
{
    mark.place.is_some() || !mark.text.is_empty()
}

// Appends the locations of labels. A label without source and text is left out.
fn push_marks<'a>(
    locations: &mut Vec<SarifLocation<'a>>,
    seen: Option<&SourceSnapshot<'a>>,
    labels: &[&'a LabeledSpan],
) -> Result<(), AllocError>
    ensures { OnOk result (map mark_of locations.new.items
        ≡ map mark_of locations.old.items ++ marks_from (over_of seen.entry) (labels_in labels.now)) }
{
    for label in labels {
        let mark = mark_over(seen, *label);
        if says_something(&mark) {
            locations.push(mark)?;
        }
    }
    Ok(())
}

// Appends the locations of a group's labels.
fn push_group<'a>(
    locations: &mut Vec<SarifLocation<'a>>,
    group: SourceLabels<'_, 'a>,
) -> Result<(), AllocError>
    ensures { OnOk result (map mark_of locations.new.items ≡ map mark_of locations.old.items
        ++ marks_in (group_of group.entry)) }
{
    let SourceLabels { seen, labels } = group;
    push_marks(locations, seen, &labels)
}

/// Appends the locations of all labels of these groups.
pub(crate) fn push_groups<'a>(
    locations: &mut Vec<SarifLocation<'a>>,
    groups: Vec<SourceLabels<'_, 'a>>,
) -> Result<(), AllocError>
    ensures { OnOk result (map mark_of locations.new.items
        ≡ map mark_of locations.old.items ++ marks_of (groups_in groups.entry.items)) }
{
    for group in groups {
        push_group(locations, group)?;
    }
    Ok(())
}
