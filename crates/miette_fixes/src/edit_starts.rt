//! The offsets at which the edits of several fixes begin.

ghost use Rattle.std.specs.Prelude.{◌≡◌, ◌≢◌, ◌++◌, ◌∷◌, ℕ, List, [], None, Some, false, true, length, max, IfOk};
ghost use Rattle.std.specs.BTreeMap.{get};
ghost use Rattle.std.specs.List.{list_any};
ghost use Rattle.std.specs.Ordering.{nat_cmp};
ghost use Rattle.miette_fixes.specs.declared.edit_starts.EditStart.{EditStart};
ghost use Rattle.miette_fixes.specs.rules.ApplyingAll.{all_edits, conflict, equals_some_fix, edit_lists, some_conflict};
ghost use Rattle.miette_fixes.specs.rules.Edits.{Replacement, some_overlap};
ghost use Rattle.miette_fixes.specs.steps.EditStarts.{AreEditStarts, is_inside, meets_from};
ghost use Rattle.miette_fixes.specs.laws.Conflicts.{NoTwoConflict};

use crate::edit::Edit;
use crate::fix_builder::Fix;
use std::alloc::AllocError;
use std::collections::BTreeMap;

/// For an offset at which edits begin: the greatest of their lengths, and the index of a fix that has one of them.
#[derive(Clone, Copy)]
pub(crate) struct EditStart {
    len: usize,
    list: usize,
}

/// Such an entry for each offset at which an edit begins.
pub(crate) type EditStarts = BTreeMap<usize, EditStart>;

// Whether the last earlier edit, or one at the same offset, reaches the offset of this one.
fn meets_before(edit: &Edit, begun: &EditStarts) -> bool
    ensures { (lists : List (List Replacement)) → AreEditStarts begun.now lists →
        some_overlap (all_edits lists) ≡ false → result ≡ list_any (meets_from edit.now) (all_edits lists) }
{
    let at = edit.offset();
    match begun.range(..=at).next_back() {
        Some((offset, before)) => *offset == at || at - *offset < before.len,
        None => false,
    }
}

// Whether the next edit, at the same offset or later, begins inside this one.
fn meets_after(edit: &Edit, begun: &EditStarts) -> bool
    ensures { (lists : List (List Replacement)) → AreEditStarts begun.now lists →
        result ≡ list_any (is_inside edit.now) (all_edits lists) }
{
    let at = edit.offset();
    match begun.range(at..).next() {
        Some((offset, _)) => *offset - at < edit.len(),
        None => false,
    }
}

// Whether an edit conflicts with one of the recorded edits. No two of those overlap.
fn conflicts(edit: &Edit, begun: &EditStarts) -> bool
    ensures { (lists : List (List Replacement)) → AreEditStarts begun.now lists →
        some_overlap (all_edits lists) ≡ false → result ≡ list_any (conflict edit.now) (all_edits lists) }
{
    meets_before(edit, begun) || meets_after(edit, begun)
}

/// Whether one of these edits conflicts with one of the recorded edits. No two of those overlap.
pub(crate) fn some_conflict(edits: &[Edit], begun: &EditStarts) -> bool
    ensures { (lists : List (List Replacement)) → AreEditStarts begun.now lists →
        some_overlap (all_edits lists) ≡ false → result ≡ some_conflict edits.now (all_edits lists) }
{
    for edit in edits {
        if conflicts(edit, begun) {
            return true;
        }
    }
    false
}

/// Whether these edits are exactly those of one of the fixes. There is at least one edit, and no two fixes conflict.
pub(crate) fn equals_some_fix(edits: &[Edit], begun: &EditStarts, fixes: &[&Fix]) -> bool
    ensures { (edits.now ≢ []) → AreEditStarts begun.now (edit_lists fixes.now) → NoTwoConflict (edit_lists fixes.now) →
        result ≡ equals_some_fix edits.now (edit_lists fixes.now) }
{
    let Some(first) = edits.first() else {
        return false;
    };
    match begun.get(&first.offset()) {
        Some(beginning) => match fixes.get(beginning.list) {
            Some(fix) => edits == fix.edits(),
            None => false,
        },
        None => false,
    }
}

// Returns the greatest length of this edit and those that begin at the same offset.
fn greatest_len(edit: &Edit, begun: &EditStarts) -> usize
    ensures fresh { get nat_cmp begun.now edit.now.span.offset ≡ None → result ≡ edit.now.span.len }
    ensures again { (old : EditStart) → get nat_cmp begun.now edit.now.span.offset ≡ Some old →
        result ≡ max old.len edit.now.span.len }
{
    match begun.get(&edit.offset()) {
        Some(before) => before.len.max(edit.len()),
        None => edit.len(),
    }
}

// Records the edits of one more fix, whose index is `list`.
fn with_edits(mut begun: EditStarts, list: usize, edits: &[Edit]) -> Result<EditStarts, AllocError>
    ensures { IfOk result (λ it. (lists : List (List Replacement)) → AreEditStarts begun lists →
        list ≡ length lists → AreEditStarts it (lists ++ edits.now ∷ [])) }
{
    for edit in edits {
        let len = greatest_len(edit, &begun);
        begun.insert(edit.offset(), EditStart { len, list })?;
    }
    Ok(begun)
}

/// Records the edits of one more fix, whose index is `list`. Does nothing if no fix follows.
///
/// # Errors
/// `AllocError` if allocation fails.
pub(crate) fn record_edits(
    begun: EditStarts,
    list: usize,
    edits: &[Edit],
    more: bool,
) -> Result<EditStarts, AllocError>
    ensures { IfOk result (λ it. more ≡ true → (lists : List (List Replacement)) → AreEditStarts begun lists →
        list ≡ length lists → AreEditStarts it (lists ++ edits.now ∷ [])) }
{
    if more {
        with_edits(begun, list, edits)
    } else {
        Ok(begun)
    }
}
