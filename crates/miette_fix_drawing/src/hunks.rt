//! Hunks: adjacent changes with the unchanged lines before them.

ghost use Rattle.std.specs.Prelude.{◌≡◌, ◌≤◌, length, IfOk};
ghost use Rattle.std.specs.List.{AllByRecursion};
ghost use Rattle.miette_fix_rows.specs.rules.Blocks.{line_texts};
ghost use Rattle.miette_fix_rows.specs.rules.Hunks.{diff_from};
ghost use Rattle.miette_fix_drawing.specs.steps.Places.{HunkIsIn};
ghost use Rattle.miette_fix_drawing.specs.steps.Rising.{AreRising, joined, joined_end};
ghost use Rattle.miette_fix_drawing.specs.views.Hunks.{hunks_of};

use miette_fix_rows::changes::Change;
use std::alloc::{AllocError, Global};

/// Adjacent changes, and the unchanged lines before them.
#[derive(Clone, Copy)]
pub(crate) struct Hunk<'a> {
    /// The offset in the source at which the unchanged lines begin.
    pub(crate) at: usize,
    /// The unchanged lines.
    pub(crate) kept: &'a [u8],
    /// The changes, with no unchanged line between them.
    pub(crate) changes: &'a [Change<'a>],
}

// Returns the end of a change's removed lines.
fn end_of(source: &[u8], change: &Change) -> usize
    requires { change.now.to ≤ length source.now }
    ensures { result ≡ change.now.to }
{
    let size = change.removed().len();
    let _all = source.len();
    change.start() + size
}

// Returns how many changes from the first on are adjacent, the first one beginning at `at`, and where they end.
fn joined(source: &[u8], at: usize, changes: &[Change]) -> (usize, usize)
    requires { AreRising (length source.now) at changes.now }
    ensures many { result.0 ≡ joined at changes.now }
    ensures end { result.1 ≡ joined_end at changes.now }
    ensures within { result.0 ≤ length changes.now }
{
    let mut end = at;
    let mut many = 0;
    for change in changes {
        if change.start() != end {
            return (many, end);
        }
        end = end_of(source, change);
        many += 1;
    }
    (many, end)
}

/// Returns the hunks of changes, and the unchanged lines after the last one.
pub(crate) fn hunks_of<'a>(
    alloc: Global,
    source: &'a [u8],
    changes: &'a [Change<'a>],
) -> Result<(Vec<Hunk<'a>>, &'a [u8]), AllocError>
    requires { AreRising (length source.now) 0 changes.now }
    ensures hunks { IfOk result (λ it. hunks_of it.0.items ≡ (diff_from source.now 0 changes.now).hunks) }
    ensures stand { IfOk result (λ it. AllByRecursion (HunkIsIn source.now) it.0.items) }
    ensures behind { IfOk result (λ it. line_texts it.1.now ≡ (diff_from source.now 0 changes.now).after_hunks) }
{
    let mut list = Vec::new(alloc);
    let mut low = 0;
    let mut at = 0;
    while low < changes.len() {
        let from = changes[low].start();
        let (many, end) = joined(source, from, &changes[low..]);
        list.push(Hunk {
            at,
            kept: &source[at..from],
            changes: &changes[low..low + many],
        })?;
        at = end;
        low += many;
    }
    Ok((list, &source[at..]))
}
