//! Applies several fixes to one source.

ghost use Rattle.std.specs.Prelude.{◌≡◌, List, [], false, length, IfOk};
ghost use Rattle.miette_fixes.specs.rules.ApplyingAll.{all_applied, all_edits, counts, edit_lists, taken};
ghost use Rattle.miette_fixes.specs.rules.Applying.{by_offset};
ghost use Rattle.miette_fixes.specs.rules.Edits.{Replacement, some_overlap};
ghost use Rattle.miette_fixes.specs.steps.EditStarts.{AreEditStarts};
ghost use Rattle.miette_fixes.specs.views.Ordered.{edits_of};

use crate::apply::{check_edits, splice_edits};
use crate::edit::Edit;
use crate::edit_starts::{EditStarts, equals_some_fix, record_edits, some_conflict};
use crate::error::FixError;
use crate::fix_builder::Fix;
use crate::order::{append_references, sort};
use std::alloc::{AllocError, Global};

/// The result of `apply_all`.
#[derive(Debug, Drop)]
pub struct Applied {
    /// The source after the edits of all fixes that were applied.
    pub text: Vec<u8>,
    /// Whether each fix was applied, in the order given.
    pub taken: Vec<bool>,
}

// Whether a fix can be applied together with the edits taken so far. No two of those overlap.
fn counts(
    alloc: Global,
    length: usize,
    begun: &EditStarts,
    edits: &[Edit],
) -> Result<bool, AllocError>
    ensures { IfOk result (λ it. (lists : List (List Replacement)) → AreEditStarts begun.now lists →
        some_overlap (all_edits lists) ≡ false → it ≡ counts length (all_edits lists) edits.now) }
{
    match check_edits(alloc, length, edits) {
        Ok(_) => Ok(!some_conflict(edits, begun)),
        Err(FixError::Memory) => Err(AllocError),
        Err(FixError::OutOfBounds { .. }) => Ok(false),
        Err(FixError::Overlap { .. }) => Ok(false),
    }
}

// Sorts the edits of all fixes by offset, then by length. Equal ones keep their order.
fn sort_all_edits<'a>(alloc: Global, fixes: &[&'a Fix]) -> Result<Vec<&'a Edit>, AllocError>
    ensures { IfOk result (λ v. edits_of v.items ≡ by_offset (all_edits (edit_lists fixes.now))) }
{
    let mut list = Vec::new(alloc);
    for fix in fixes {
        list = append_references(list, fix.edits())?;
    }
    sort(&mut list)?;
    Ok(list)
}

/// Applies as many fixes to a source as possible. Fixes are tried in the order given, and each is applied as a whole or
/// not at all.
///
/// A fix is applied if its edits are valid by themselves and none of them conflicts with an edit applied before. Two
/// edits conflict if they overlap or begin at the same offset. A fix with the same edits as an applied one counts as
/// applied; its edits are applied once.
///
/// Takes time linear in the source and O(n log n) in the number of edits.
///
/// # Errors
/// `AllocError` if allocation fails.
pub fn apply_all(alloc: Global, source: &[u8], fixes: &[&Fix]) -> Result<Applied, AllocError>
    ensures taken { IfOk result (λ it. it.taken.items ≡ taken (length source.now) [] (edit_lists fixes.now)) }
    ensures whole { IfOk result (λ it. it.text.items ≡ all_applied source.now (edit_lists fixes.now)) }
{
    let mut counted = Vec::new(alloc);
    let mut begun = EditStarts::new(alloc);
    let many = fixes.len();
    let last = many.saturating_sub(1);
    let mut taken = Vec::with_capacity(alloc, many)?;
    for fix in fixes {
        let proposed = fix.edits();
        if counts(alloc, source.len(), &begun, proposed)? {
            let number = counted.len();
            let place = taken.len();
            begun = record_edits(begun, number, proposed, place < last)?;
            counted.push(*fix)?;
            taken.push(true)?;
        } else {
            taken.push(equals_some_fix(proposed, &begun, &counted))?;
        }
    }
    let edits = sort_all_edits(alloc, &counted)?;
    let text = splice_edits(alloc, source, 0, &edits)?;
    Ok(Applied { text, taken })
}
