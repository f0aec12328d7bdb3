//! The suggestions of a report over a whole file: those of that file, and others.

ghost use Rattle.std.specs.Prelude.{◌≡◌, [], ◌++◌, Some, IfOk, OnOk, bytes_eq};
ghost use Rattle.std.specs.List.{cons_option, filter_map};
ghost use Rattle.miette_read.specs.rules.Reports.{main_fixes};
ghost use Rattle.miette_read_sarif.specs.rules.Wholes.{fixes_over, is_of, other_suggestion, own_suggestion};

use crate::drafts::{OwnedEdit, SuggestionDraft};
use crate::proposals::push_suggestion;
use miette_fixes::fix::Fix;
use miette_read::files::Files;
use miette_read::suggestions::Suggestion;
use std::alloc::{AllocError, Global};

/// Returns whether an edit is in this file.
fn is_in(edit: &OwnedEdit<'_>, name: &str) -> bool
    ensures { result ≡ bytes_eq edit.now.0.name name.now }
{
    edit.place.name.as_str() == name
}

/// Returns whether all edits of a suggestion are in this file.
fn is_of(name: &str, draft: &SuggestionDraft<'_>) -> bool
    ensures { result ≡ is_of name.now draft.now }
{
    draft.edits.iter().all(|edit| is_in(edit, name))
}

/// Appends a suggestion of this file, if its locations are found.
fn push_own<'f, 'd, F: Files>(
    list: &mut Vec<Suggestion<'f, 'd>>,
    alloc: Global,
    files: &'f F,
    name: &str,
    draft: &'d SuggestionDraft<'_>,
) -> Result<(), AllocError>
    ensures { OnOk result (list.new.items ≡ list.old.items
        ++ cons_option (own_suggestion (F.found files.now) name.now draft.now) []) }
{
    if is_of(name, draft) {
        push_suggestion(list, alloc, files, draft)
    } else {
        Ok(())
    }
}

/// Appends a suggestion of another file, if its locations are found.
fn push_other<'f, 'd, F: Files>(
    list: &mut Vec<Suggestion<'f, 'd>>,
    alloc: Global,
    files: &'f F,
    name: &str,
    draft: &'d SuggestionDraft<'_>,
) -> Result<(), AllocError>
    ensures { OnOk result (list.new.items ≡ list.old.items
        ++ cons_option (other_suggestion (F.found files.now) name.now draft.now) []) }
{
    if is_of(name, draft) {
        Ok(())
    } else {
        push_suggestion(list, alloc, files, draft)
    }
}

/// Returns the suggestions of this file whose locations are all found.
pub(crate) fn own_suggestions<'f, 'd, F: Files>(
    alloc: Global,
    files: &'f F,
    name: &str,
    drafts: &'d [SuggestionDraft<'_>],
) -> Result<Vec<Suggestion<'f, 'd>>, AllocError>
    ensures { IfOk result (λ list. list.items ≡ filter_map (own_suggestion (F.found files.now) name.now) drafts.now) }
{
    let mut list = Vec::new(alloc);
    for draft in drafts {
        push_own(&mut list, alloc, files, name, draft)?;
    }
    Ok(list)
}

/// Returns the suggestions of other files whose locations are all found.
pub(crate) fn other_suggestions<'f, 'd, F: Files>(
    alloc: Global,
    files: &'f F,
    name: &str,
    drafts: &'d [SuggestionDraft<'_>],
) -> Result<Vec<Suggestion<'f, 'd>>, AllocError>
    ensures { IfOk result (λ list. list.items ≡ filter_map (other_suggestion (F.found files.now) name.now) drafts.now) }
{
    let mut list = Vec::new(alloc);
    for draft in drafts {
        push_other(&mut list, alloc, files, name, draft)?;
    }
    Ok(list)
}

/// Appends the fixes of a suggestion over this file.
fn push_over(
    list: &mut Vec<Fix>,
    alloc: Global,
    name: &str,
    offer: &Suggestion<'_, '_>,
) -> Result<(), AllocError>
    ensures { OnOk result (list.new.items ≡ list.old.items ++ main_fixes (Some name.now) offer.now) }
{
    offer.push_fixes(list, alloc, name, offer.message.as_str())
}

/// Returns the fixes of these suggestions over this file.
pub(crate) fn fixes_over(
    alloc: Global,
    name: &str,
    offers: &[Suggestion<'_, '_>],
) -> Result<Vec<Fix>, AllocError>
    ensures { IfOk result (λ list. list.items ≡ fixes_over name.now offers.now) }
{
    let mut list = Vec::new(alloc);
    for offer in offers {
        push_over(&mut list, alloc, name, offer)?;
    }
    Ok(list)
}
