//! An index of label extents, by which those that touch a range of bytes are found quickly.

ghost use Rattle.std.specs.Prelude.{◌≡◌, ◌<◌, ◌≤◌, ◌+◌, ◌-◌, ℕ, List, length, max, slice_index, slice_index_or, IfOk};
ghost use Rattle.std.specs.List.{All};
ghost use Rattle.miette_protocol.specs.rules.Reading.{Contents};
ghost use Rattle.miette_snippet_folds.specs.declared.folds.LabelExtent.{LabelExtent as MadeExtent};
ghost use Rattle.miette_snippet_folds.specs.views.ExtentIndex.{IsNumbered};
ghost use Rattle.miette_snippet_folds.specs.views.ExtentIndexes.{AreAround, AreBounds, IsWindow};

use crate::folds::LabelExtent;
use std::alloc::{AllocError, Global};
use std::marker::Model;

/// How far the contexts of labels reach.
#[derive(Drop)]
pub struct ContextBounds {
    /// For each label, the largest end of the contexts up to this label.
    pub untils: Vec<usize>,
    /// For each label, last one first, the smallest start of the contexts from this label on.
    pub froms: Vec<usize>,
}

/// A range of labels.
#[derive(Clone, Copy, Drop)]
pub struct FoldRange {
    /// The index of the first one.
    pub first: usize,
    /// The index after the last one.
    pub after: usize,
}

/// The extents of labels, indexed by offset.
#[derive(Drop)]
pub struct ExtentIndex {
    all: Vec<LabelExtent>,
    bounds: ContextBounds,
}

impl Model for ExtentIndex {
    ghost use Rattle.std.specs.Prelude.{List};
    ghost use Rattle.miette_snippet_folds.specs.declared.folds.LabelExtent.{LabelExtent as MadeExtent};

    ghost Value = { List MadeExtent };

    ghost use Rattle.miette_snippet_folds.specs.views.ExtentIndexes.{AreBounds};

    ghost view = { λ s. s.all.items };

    ghost invariant = { λ s. AreBounds s.all.items s.bounds.untils.items s.bounds.froms.items };
}

// Returns, for each label, the largest end of the contexts up to this label.
fn untils_of(alloc: Global, labels: &[LabelExtent]) -> Result<Vec<usize>, AllocError>
    ensures many { IfOk result (λ made. length made.items ≡ length labels.now) }
    ensures until { IfOk result (λ made. (j k : ℕ) → (d : MadeExtent) → j ≤ k → k < length labels.now →
        max (slice_index_or labels.now j d).until (slice_index_or labels.now j d).from ≤ slice_index made.items k) }
{
    let mut made = Vec::with_capacity(alloc, labels.len())?;
    let mut most = 0;
    for label in labels {
        most = label.until.max(label.from).max(most);
        made.push(most)?;
    }
    Ok(made)
}

// Returns, for each label, last one first, the smallest start of the contexts from this label on.
fn froms_of(alloc: Global, labels: &[LabelExtent]) -> Result<Vec<usize>, AllocError>
    ensures many { IfOk result (λ made. length made.items ≡ length labels.now) }
    ensures from { IfOk result (λ made. (j k : ℕ) → (d : MadeExtent) → k < length labels.now →
        length labels.now - (k + 1) ≤ j → j < length labels.now →
        slice_index made.items k ≤ (slice_index_or labels.now j d).from) }
{
    let mut made = Vec::with_capacity(alloc, labels.len())?;
    let mut least = usize::MAX;
    for k in 0..labels.len() {
        let label = &labels[labels.len() - 1 - k];
        least = label.from.min(least);
        made.push(least)?;
    }
    Ok(made)
}

/// Returns how far the contexts of these labels reach. `AllocError` if allocation fails.
pub fn context_bounds(alloc: Global, labels: &[LabelExtent]) -> Result<ContextBounds, AllocError>
    ensures { IfOk result (λ bounds. AreBounds labels.now bounds.untils.items bounds.froms.items) }
{
    Ok(ContextBounds {
        untils: untils_of(alloc, labels)?,
        froms: froms_of(alloc, labels)?,
    })
}

// Returns how many labels at the front all have contexts that end before an offset.
fn many_before(untils: &[usize], offset: usize) -> usize
    ensures few { result ≤ length untils.now }
    ensures until { 0 < result → slice_index untils.now (result - 1) < offset }
{
    let many = untils.partition_point(|until| *until < offset);
    if many > 0 && many <= untils.len() {
        let last = untils[many - 1];
        if last < offset {
            return many;
        }
    }
    0
}

// Returns how many labels at the back all have contexts that begin at an offset or later.
fn many_after(froms: &[usize], end: usize) -> usize
    ensures few { result ≤ length froms.now }
    ensures from { 0 < result → end ≤ slice_index froms.now (result - 1) }
{
    let many = froms.partition_point(|from| end <= *from);
    if many > 0 && many <= froms.len() {
        let last = froms[many - 1];
        if end <= last {
            return many;
        }
    }
    0
}

/// Returns the range of labels that may touch the bytes from `start` up to `end`.
pub fn range_touching(bounds: &ContextBounds, start: usize, end: usize) -> FoldRange
    ensures { (labels : List MadeExtent) → AreBounds labels bounds.now.untils.items bounds.now.froms.items →
        IsWindow start end labels result.first result.after }
{
    let first = many_before(&bounds.untils, start.min(end));
    let later = many_after(&bounds.froms, end);
    FoldRange {
        first,
        after: bounds.untils.len().saturating_sub(later).max(first),
    }
}

impl ExtentIndex {
    /// Indexes the extents `all`. `AllocError` if allocation fails.
    pub fn new(alloc: Global, all: Vec<LabelExtent>) -> Result<Self, AllocError>
        ensures { IfOk result (λ label_extents. label_extents ≡ all.items) }
    {
        let bounds = context_bounds(alloc, &all)?;
        Ok(ExtentIndex { all, bounds })
    }

    /// Returns a range of extents. No label outside it has a context byte from `start` up to `end`.
    pub fn around(&self, start: usize, end: usize) -> &[LabelExtent]
        ensures around { AreAround start end self.now result.now }
        ensures numbered { (contents : Contents) → All (IsNumbered contents) self.now
            → All (IsNumbered contents) result.now }
    {
        let near = range_touching(&self.bounds, start, end);
        &self.all[near.first..near.after]
    }
}
