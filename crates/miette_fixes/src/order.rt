//! Sorts edits by offset.

ghost use Rattle.std.specs.Prelude.{◌≡◌, ◌++◌, IfOk, OnOk};
ghost use Rattle.miette_fixes.specs.rules.Applying.{by_offset};
ghost use Rattle.miette_fixes.specs.rules.Edits.{is_after};
ghost use Rattle.miette_fixes.specs.steps.Sweeping.{ascends};
ghost use Rattle.miette_fixes.specs.views.Ordered.{edits_of};

use crate::edit::Edit;
use std::alloc::{AllocError, Global};

/// Appends references to edits to a list.
///
/// # Errors
/// `AllocError` if allocation fails.
pub(crate) fn append_references<'a>(
    mut list: Vec<&'a Edit>,
    edits: &'a [Edit],
) -> Result<Vec<&'a Edit>, AllocError>
    ensures { IfOk result (λ it. edits_of it.items ≡ edits_of list.entry.items ++ edits.now) }
{
    for edit in edits {
        list.push(edit)?;
    }
    Ok(list)
}

// Whether an edit sorts after another one: by offset, then by length.
fn comes_after(edit: &Edit, other: &Edit) -> bool
    ensures { result ≡ is_after edit.now other.now }
{
    other.offset() < edit.offset() || (other.offset() == edit.offset() && other.len() < edit.len())
}

// Whether the edits are sorted.
fn ascend(edits: &[&Edit]) -> bool
    ensures { result ≡ ascends (edits_of edits.now) }
{
    let Some((first, rest)) = edits.split_first() else {
        return true;
    };
    let mut before = *first;
    for edit in rest {
        if comes_after(before, edit) {
            return false;
        }
        before = edit;
    }
    true
}

/// Sorts edits by offset, then by length. Equal ones keep their order. Sorted edits are left as they are.
pub(crate) fn sort(edits: &mut Vec<&Edit>) -> Result<(), AllocError>
    ensures { OnOk result (edits_of edits.new.items ≡ by_offset (edits_of edits.old.items)) }
{
    if ascend(edits) {
        return Ok(());
    }
    edits.sort_by_key(|edit| *edit.span())
}

/// Returns the edits sorted by offset, then by length. Equal ones keep their order.
pub(crate) fn sorted<'a>(alloc: Global, edits: &'a [Edit]) -> Result<Vec<&'a Edit>, AllocError>
    ensures { IfOk result (λ v. edits_of v.items ≡ by_offset edits.now) }
{
    let mut list = append_references(Vec::with_capacity(alloc, edits.len())?, edits)?;
    sort(&mut list)?;
    Ok(list)
}
