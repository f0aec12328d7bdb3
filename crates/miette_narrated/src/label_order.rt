//! The labels of a source, sorted in the two orders that the lines of a snippet need.

ghost use Rattle.std.specs.Prelude.{◌≡◌, nat_lt, IfOk};
ghost use Rattle.std.specs.List.{filter};
ghost use Rattle.std.specs.List.Sorted.{IsNonDecreasingBy};
ghost use Rattle.miette_lines.specs.views.Walking.{line_of_text};
ghost use Rattle.miette_narrated.specs.steps.Ends.{is_begun, is_ended, ends_within, without_ranks, ranked_labels};
ghost use Rattle.miette_narrated.specs.steps.Ends.{AreEnds, IsOrder};
ghost use Rattle.miette_narrated.specs.steps.LabelSweep.{AreOrdered};

use miette_labels::placed::PlacedLabel;
use miette_lines::lines::LineOfText;
use std::alloc::{AllocError, Global};

/// A label and its rank: the number of labels before it by offset.
#[derive(Clone, Copy, Drop)]
pub(crate) struct RankedLabel<'a> {
    pub(crate) rank: usize,
    pub(crate) label: PlacedLabel<'a>,
}

/// The labels sorted by offset, and the same labels sorted by where they end.
#[derive(Clone, Copy)]
pub(crate) struct LabelOrder<'a> {
    pub(crate) placed: &'a [PlacedLabel<'a>],
    pub(crate) ends: &'a [RankedLabel<'a>],
}

// Adds to each label its rank.
fn with_ranks<'a>(
    alloc: Global,
    placed: &[PlacedLabel<'a>],
) -> Result<Vec<RankedLabel<'a>>, AllocError>
    ensures { IfOk result (λ v. v.items ≡ ranked_labels 0 placed.now) }
{
    let mut made = Vec::new(alloc);
    for label in placed {
        let rank = made.len();
        made.push(RankedLabel {
            rank,
            label: *label,
        })?;
    }
    Ok(made)
}

/// Sorts labels by where they end. `placed` is sorted by offset.
pub(crate) fn by_end<'a>(
    alloc: Global,
    placed: &[PlacedLabel<'a>],
) -> Result<Vec<RankedLabel<'a>>, AllocError>
    ensures { IfOk result (λ v. AreEnds placed.now v.items) }
{
    let mut ends = with_ranks(alloc, placed)?;
    ends.sort_by_key(|end| end.label.after)?;
    Ok(ends)
}

// Returns the labels that end within a line's text, found by binary search. `ends` is sorted by where labels end.
fn labels_ending_on<'a>(ends: &'a [RankedLabel<'a>], line: &LineOfText) -> &'a [RankedLabel<'a>]
    requires { IsNonDecreasingBy (λ end. end.label.after) ends.now }
    ensures { result.now ≡ filter (λ end. ends_within (line_of_text line.now) end.label) ends.now }
{
    let first = ends.partition_point(|end| end.label.after < line.start);
    let after = ends.partition_point(|end| end.label.after <= line.text_end);
    &ends[first.min(after)..after]
}

// Returns the labels that begin before an offset.
fn begun_before<'a>(
    alloc: Global,
    ends: &[RankedLabel<'a>],
    place: usize,
) -> Result<Vec<RankedLabel<'a>>, AllocError>
    ensures { IfOk result (λ v. v.items ≡ filter (λ end. nat_lt end.label.start place) ends.now) }
{
    let mut kept = Vec::new(alloc);
    for end in ends {
        if end.label.start < place {
            kept.push(*end)?;
        }
    }
    Ok(kept)
}

/// Returns the labels that begin before a line and end within its text, sorted by offset.
pub(crate) fn ended_on<'a>(
    alloc: Global,
    order: &LabelOrder<'a>,
    line: &LineOfText,
) -> Result<Vec<RankedLabel<'a>>, AllocError>
    requires { IsOrder order.now }
    ensures { IfOk result (λ v. without_ranks v.items
        ≡ filter (is_ended (line_of_text line.now)) order.now.placed.now) }
{
    let mut ended = begun_before(alloc, labels_ending_on(order.ends, line), line.start)?;
    ended.sort_by_key(|end| end.rank)?;
    Ok(ended)
}

/// Returns the labels that begin within a line's text, found by binary search.
pub(crate) fn begun_on<'a>(
    placed: &'a [PlacedLabel<'a>],
    line: &LineOfText,
) -> &'a [PlacedLabel<'a>]
    requires { AreOrdered placed.now }
    ensures { result.now ≡ filter (is_begun (line_of_text line.now)) placed.now }
{
    let first = placed.partition_point(|label| label.start < line.start);
    let after = placed.partition_point(|label| label.start <= line.text_end);
    &placed[first.min(after)..after]
}
