//! Sorts, checks and applies the edits of one fix.

ghost use Rattle.std.specs.Prelude.{◌≡◌, ◌≢◌, ◌+◌, drop, length, nat_lt, position, IfOk, IfErr, None, Some};
ghost use Rattle.miette_fixes.specs.declared.error.FixError.TheVariants.{Memory};
ghost use Rattle.miette_fixes.specs.rules.Applying.{applied, by_offset, edits_error, index_from, overlap_error};
ghost use Rattle.miette_fixes.specs.rules.Applying.{text_from};
ghost use Rattle.miette_fixes.specs.rules.Edits.{end_of, ends_after, same_span};
ghost use Rattle.miette_fixes.specs.steps.Sweeping.{crossing};
ghost use Rattle.miette_fixes.specs.views.Ordered.{FitFrom, edits_of};

use crate::edit::Edit;
use crate::error::FixError;
use crate::order::sorted;
use std::alloc::{AllocError, Global};

// Whether an edit ends after the end of a source of `length` bytes.
fn is_outside(length: usize, edit: &Edit) -> bool
    ensures { result ≡ ends_after length edit.now }
{
    length < edit.offset() || length - edit.offset() < edit.len()
}

// Returns the index of the first edit that ends after the end of the source.
fn first_outside(length: usize, edits: &[Edit]) -> Option<usize>
    ensures { result ≡ position (ends_after length) edits.now }
{
    edits.iter().position(|edit| is_outside(length, edit))
}

// Whether two edits have the same span.
fn have_same_span(edit: &Edit, other: &Edit) -> bool
    ensures { result ≡ same_span edit.now other.now }
{
    edit.offset() == other.offset() && edit.len() == other.len()
}

// Returns the index of the first edit with this one's span, from an index on.
fn index_from(from: usize, edit: &Edit, edits: &[Edit]) -> usize
    ensures { result ≡ index_from from edit.now edits.now }
{
    let mut index = from;
    while index < edits.len() {
        if have_same_span(edit, &edits[index]) {
            return index;
        }
        index += 1;
    }
    index
}

// Returns the error for two of these edits that overlap.
fn overlap_error(edits: &[Edit], edit: &Edit, next: &Edit) -> FixError
    ensures { result ≡ overlap_error edits.now edit.now next.now }
{
    let first = index_from(0, edit, edits);
    let from = if have_same_span(edit, next) {
        first + 1
    } else {
        0
    };
    let second = index_from(from, next, edits);
    FixError::Overlap { first, second }
}

// Whether an edit ends after the next one begins.
fn reaches(edit: &Edit, next: &Edit) -> bool
    ensures { result ≡ nat_lt next.now.span.offset (end_of edit.now) }
{
    next.offset() < edit.offset() || next.offset() - edit.offset() < edit.len()
}

// Returns the error for the first edit that ends after the next one begins. `sorted` has these edits by offset.
fn find_overlap(edits: &[Edit], sorted: &[&Edit]) -> Option<FixError>
    ensures { result ≡ crossing edits.now (edits_of sorted.now) }
{
    let Some((first, rest)) = sorted.split_first() else {
        return None;
    };
    let mut before = *first;
    for edit in rest {
        if reaches(before, edit) {
            return Some(overlap_error(edits, before, edit));
        }
        before = edit;
    }
    None
}

// Returns the length of the text after these edits, in bytes.
fn length_after(length: usize, edits: &[&Edit]) -> usize {
    let mut after = length;
    for edit in edits {
        after = after.saturating_sub(edit.len());
    }
    for edit in edits {
        after = after.saturating_add(edit.text().len());
    }
    after
}

/// Applies sorted edits that fit to the source from an offset on.
///
/// # Errors
/// `AllocError` if allocation fails.
pub fn splice_edits(
    alloc: Global,
    source: &[u8],
    from: usize,
    edits: &[&Edit],
) -> Result<Vec<u8>, AllocError>
    requires { FitFrom (length source.now) from (edits_of edits.now) }
    ensures { IfOk result (λ text. text.items ≡ text_from source.now from (edits_of edits.now)) }
{
    let room = length_after(source.len().saturating_sub(from), edits);
    let mut text = Vec::with_capacity(alloc, room)?;
    let mut at = from;
    for edit in edits {
        let kept = &source[at..edit.offset()];
        text.extend_from_slice(kept)?;
        text.extend_from_slice(edit.text().as_bytes())?;
        at = edit.offset() + edit.len();
    }
    text.extend_from_slice(&source[at..])?;
    Ok(text)
}

/// Returns the edits sorted by offset, if they can be applied to a source of `length` bytes.
///
/// # Errors
/// `OutOfBounds` if an edit ends after the end of the source, else `Overlap` if two edits overlap; both say which edits.
/// `Memory` if allocation fails.
pub fn check_edits<'a>(
    alloc: Global,
    length: usize,
    edits: &'a [Edit],
) -> Result<Vec<&'a Edit>, FixError>
    ensures ok { IfOk result (λ sorted.
        (edits_error length edits.now ≡ None) × (edits_of sorted.items ≡ by_offset edits.now)) }
    ensures refused { IfErr result (λ e. e ≢ Memory → edits_error length edits.now ≡ Some e) }
{
    if let Some(edit) = first_outside(length, edits) {
        return Err(FixError::OutOfBounds { edit });
    }
    let list = sorted(alloc, edits)?;
    match find_overlap(edits, &list) {
        Some(error) => Err(error),
        None => Ok(list),
    }
}

/// Applies edits to a source.
///
/// # Errors
/// Those of `check_edits`.
pub(crate) fn apply_edits(alloc: Global, source: &[u8], edits: &[Edit]) -> Result<Vec<u8>, FixError>
    ensures ok { IfOk result (λ text.
        (edits_error (length source.now) edits.now ≡ None) × (text.items ≡ applied source.now edits.now)) }
    ensures refused { IfErr result (λ e. e ≢ Memory → edits_error (length source.now) edits.now ≡ Some e) }
{
    let list = check_edits(alloc, source.len(), edits)?;
    Ok(splice_edits(alloc, source, 0, &list)?)
}
