//! An index of the labels of a snippet, by which those that touch a line are found quickly.

ghost use Rattle.std.specs.Prelude.{◌≡◌, ◌+◌, ◌<◌, ◌^◌, ◌&&◌, ◌==◌, Bool, List, None, map, drop, length, IfOk};
ghost use Rattle.std.specs.List.{list_any};
ghost use Rattle.miette_lines.specs.views.Walking.{line_of_text};
ghost use Rattle.miette_snippet_folds.specs.declared.folds.Fold.{Fold as MadeFold};
ghost use Rattle.miette_snippet_folds.specs.views.Folding.{fold_in, is_around_fold};
ghost use Rattle.miette_snippet_folds.specs.views.Gaps.{nearest, nearest_stop};
ghost use Rattle.miette_snippet_folds.specs.views.ExtentIndex.{AreNumbered};
ghost use Rattle.miette_snippet_folds.specs.views.NearFolds.{AreStops, first_begun};

use crate::extent_index::{ContextBounds, context_bounds, range_touching};
use crate::folds::{Fold, LabelExtent, LineStart, fold_list};
use miette_lines::lines::LineOfText;
use miette_protocol::source::MietteSpanContents;
use std::alloc::{AllocError, Global};
use std::marker::Model;

/// The labels of a snippet, indexed by line.
#[derive(Drop)]
pub struct FoldIndex {
    all: Vec<Fold>,
    stops: Vec<LineStart>,
    bounds: ContextBounds,
}

impl Model for FoldIndex {
    ghost use Rattle.std.specs.Prelude.{List};
    ghost use Rattle.miette_snippet_folds.specs.declared.folds.Fold.{Fold as MadeFold};

    ghost Value = { List MadeFold };

    ghost use Rattle.miette_snippet_folds.specs.views.NearFolds.{AreIndexed};

    ghost view = { λ s. s.all.items };

    ghost invariant = { λ s. AreIndexed s.all.items s.stops.items s.bounds.untils.items s.bounds.froms.items };
}

/// The labels that may touch a line, and where the context of a later label first begins.
#[derive(Clone, Copy)]
pub struct NearbyFolds<'a> {
    /// The labels, in order.
    pub folds: &'a [Fold],
    /// The start of the first line at which the context of a later label begins.
    pub stop: Option<LineStart>,
}

/// Returns the earlier of two line starts.
pub fn nearest(end: Option<LineStart>, stop: LineStart) -> LineStart
    ensures { result ≡ nearest end stop }
{
    match end {
        Some(end) => LineStart {
            offset: end.offset.min(stop.offset),
            place: end.place.min(stop.place),
        },
        None => stop,
    }
}

// Returns, for each label from the last to the first, where the context of this or a later label first begins.
fn stops_of(alloc: Global, folds: &[Fold]) -> Result<Vec<LineStart>, AllocError>
    ensures { IfOk result (λ made. AreStops folds.now made.items) }
{
    let mut made = Vec::with_capacity(alloc, folds.len())?;
    let mut least: Option<LineStart> = None;
    for k in 0..folds.len() {
        let fold = &folds[folds.len() - 1 - k];
        let stop = nearest(least, fold.begun);
        made.push(stop)?;
        least = Some(stop);
    }
    Ok(made)
}

// Returns where the context of one of the labels from `after` on first begins.
fn stop_after(stops: &[LineStart], after: usize) -> Option<LineStart>
    ensures { (folds : List MadeFold) → AreStops folds stops.now → result ≡ first_begun (drop after folds) }
{
    if after < stops.len() {
        return Some(stops[stops.len() - 1 - after]);
    }
    None
}

/// Indexes labels among the lines that were read. `AllocError` if allocation fails.
pub fn index_folds(
    alloc: Global,
    contents: &MietteSpanContents<'_>,
    labels: &[LabelExtent],
) -> Result<FoldIndex, AllocError>
    requires small { contents.now.span.offset + length contents.now.bytes < 2 ^ 64 }
    requires numbered { AreNumbered contents.now labels.now }
    ensures { IfOk result (λ folds. folds ≡ map (fold_in contents.now.span.offset contents.now.bytes) labels.now) }
{
    let all = fold_list(alloc, contents, labels)?;
    let stops = stops_of(alloc, &all)?;
    let bounds = context_bounds(alloc, labels)?;
    Ok(FoldIndex { all, stops, bounds })
}

impl FoldIndex {
    /// Returns whether there are no labels.
    pub fn is_empty(&self) -> bool
        ensures { result ≡ (length self.now == 0) }
    {
        self.all.is_empty()
    }

    /// Returns the labels that may touch a line.
    pub fn around_line(&self, line: &LineOfText) -> NearbyFolds<'_>
        ensures around { (test : MadeFold → Bool) →
            list_any (λ f. is_around_fold (line_of_text line.now) f && test f) result.folds.now
            ≡ list_any (λ f. is_around_fold (line_of_text line.now) f && test f) self.now }
        ensures stop { nearest_stop (line_of_text line.now) result.stop result.folds.now
            ≡ nearest_stop (line_of_text line.now) None self.now }
    {
        let near = range_touching(&self.bounds, line.start, line.end);
        NearbyFolds {
            folds: &self.all[near.first..near.after],
            stop: stop_after(&self.stops, near.after),
        }
    }
}
