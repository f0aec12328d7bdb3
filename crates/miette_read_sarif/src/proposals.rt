//! Suggestions whose locations are found.

ghost use Rattle.std.specs.Prelude.{◌≡◌, ◌++◌, [], IfOk, OnOk, map, option_map, string_bytes};
ghost use Rattle.std.specs.List.{cons_option};
ghost use Rattle.miette_read_sarif.specs.rules.Proposals.{all_drafted_edits, drafted_edit, drafts_help};
ghost use Rattle.miette_read_sarif.specs.rules.Proposals.{found_suggestion, found_suggestions};
ghost use Rattle.miette_read_sarif.specs.rules.Proposals.{with_help};

use crate::drafts::{OwnedEdit, SuggestionDraft};
use miette_fixes::fix::Applicability;
use miette_read::files::Files;
use miette_read::lists::push_item;
use miette_read::location::join_rows;
use miette_read::rows::push_row_once;
use miette_read::suggestions::{FileEdit, Suggestion};
use std::alloc::{AllocError, Global};

/// Returns an edit, if its location is found.
fn drafted_edit<'f, 'd, F: Files>(files: &'f F, edit: &'d OwnedEdit<'_>) -> Option<FileEdit<'f, 'd>>
    ensures { result ≡ drafted_edit (F.found files.now) edit.now }
{
    FileEdit::found(files, &edit.place.borrowed(), edit.text)
}

/// Returns the edits. Returns `None` if one location isn't found.
fn drafted_edits<'f, 'd, F: Files>(
    alloc: Global,
    files: &'f F,
    drafted: &'d [OwnedEdit<'_>],
) -> Result<Option<Vec<FileEdit<'f, 'd>>>, AllocError>
    ensures { IfOk result (λ o. option_map (λ v. v.items) o ≡ all_drafted_edits (F.found files.now) drafted.now) }
{
    let mut edits = Vec::new(alloc);
    for draft in drafted {
        match drafted_edit(files, draft) {
            Some(edit) => push_item(&mut edits, edit)?,
            None => return Ok(None),
        }
    }
    Ok(Some(edits))
}

/// Returns the suggestion, if it has edits and its locations are found.
fn found_suggestion<'f, 'd, F: Files>(
    alloc: Global,
    files: &'f F,
    draft: &'d SuggestionDraft<'_>,
) -> Result<Option<Suggestion<'f, 'd>>, AllocError>
    ensures { IfOk result (λ o. o ≡ found_suggestion (F.found files.now) draft.now) }
{
    if draft.edits.is_empty() {
        return Ok(None);
    }
    match drafted_edits(alloc, files, draft.edits.as_slice())? {
        Some(edits) => Ok(Some(Suggestion {
            message: String::from_str(alloc, draft.words.as_str())?,
            applicability: Applicability::Unspecified,
            edits,
        })),
        None => Ok(None),
    }
}

/// Appends the suggestion, if it has edits and its locations are found.
pub(crate) fn push_suggestion<'f, 'd, F: Files>(
    list: &mut Vec<Suggestion<'f, 'd>>,
    alloc: Global,
    files: &'f F,
    draft: &'d SuggestionDraft<'_>,
) -> Result<(), AllocError>
    ensures { OnOk result (list.new.items ≡ list.old.items
        ++ cons_option (found_suggestion (F.found files.now) draft.now) []) }
{
    match found_suggestion(alloc, files, draft)? {
        Some(offer) => push_item(list, offer),
        None => Ok(()),
    }
}

/// Returns the suggestions whose locations are all found.
pub(crate) fn found_suggestions<'f, 'd, F: Files>(
    alloc: Global,
    files: &'f F,
    drafts: &'d [SuggestionDraft<'_>],
) -> Result<Vec<Suggestion<'f, 'd>>, AllocError>
    ensures { IfOk result (λ list. list.items ≡ found_suggestions (F.found files.now) drafts.now) }
{
    let mut list = Vec::new(alloc);
    for draft in drafts {
        push_suggestion(&mut list, alloc, files, draft)?;
    }
    Ok(list)
}

/// Appends the message of a suggestion that isn't found or has no edits.
fn push_help<F: Files>(
    rows: &mut Vec<String>,
    alloc: Global,
    files: &F,
    draft: &SuggestionDraft<'_>,
) -> Result<(), AllocError>
    ensures { OnOk result (map string_bytes rows.new.items
        ≡ with_help (F.found files.now) (map string_bytes rows.old.items) draft.now) }
{
    if draft.words.is_empty() {
        return Ok(());
    }
    if found_suggestion(alloc, files, draft)?.is_some() {
        return Ok(());
    }
    push_row_once(rows, alloc, draft.words.as_str())
}

/// Returns the messages of suggestions that aren't found or have no edits, each once.
pub(crate) fn drafts_help<F: Files>(
    alloc: Global,
    files: &F,
    drafts: &[SuggestionDraft<'_>],
) -> Result<Option<String>, AllocError>
    ensures { IfOk result (λ help. option_map string_bytes help ≡ drafts_help (F.found files.now) drafts.now) }
{
    let mut rows = Vec::new(alloc);
    for draft in drafts {
        push_help(&mut rows, alloc, files, draft)?;
    }
    join_rows(alloc, rows.as_slice())
}
