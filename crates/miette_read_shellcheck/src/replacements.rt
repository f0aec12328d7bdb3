//! The replacements of ShellCheck's comments, as suggestions.

ghost use Rattle.std.specs.Prelude.{◌≡◌, IfOk, option_map, string_bytes};
ghost use Rattle.serde_json.specs.View.{view};
ghost use Rattle.miette_read.specs.views.Values.{values_behind};
ghost use Rattle.miette_read_shellcheck.specs.rules.Comments.{all_replacement_edits, replacement_edit, comment_help};
ghost use Rattle.miette_read_shellcheck.specs.rules.Comments.{replacement_text, suggestions_of_edits};
ghost use Rattle.miette_read_shellcheck.specs.rules.Comments.{comment_suggestions, replacements_of};
ghost use Rattle.miette_read_shellcheck.specs.rules.Comments.{replacements_message};

use crate::comment_locations::{comment_file, comment_location};
use miette_fixes::fix::Applicability;
use miette_read::edit_message::edit_message;
use miette_read::files::Files;
use miette_read::lists::push_item;
use miette_read::members::{member_object, member_objects, member_text};
use miette_read::suggestions::{FileEdit, Suggestion};
use serde_json::Value;
use std::alloc::{AllocError, Global};

/// Returns the text that a replacement writes.
fn replacement_text(replacement: &Value) -> &str
    ensures { result.now ≡ replacement_text (view replacement.now) }
{
    member_text(replacement, "replacement").unwrap_or("")
}

/// Returns the edit of a replacement, if its location is found.
fn replacement_edit<'f, 'v, F: Files>(
    files: &'f F,
    name: &'v str,
    replacement: &'v Value,
) -> Option<FileEdit<'f, 'v>>
    ensures { result ≡ replacement_edit (F.found files.now) name.now (view replacement.now) }
{
    let place = comment_location(files, name, replacement);
    FileEdit::found(files, &place, replacement_text(replacement))
}

/// Returns the replacements of a comment.
fn replacements_of<'v>(alloc: Global, comment: &'v Value) -> Result<Vec<&'v Value>, AllocError>
    ensures { IfOk result (λ list. values_behind list.items ≡ replacements_of (view comment.now)) }
{
    match member_object(comment, "fix") {
        Some(fix) => member_objects(alloc, fix, "replacements"),
        None => Ok(Vec::new(alloc)),
    }
}

/// Returns the message of a suggestion with these replacements. ShellCheck gives none.
fn replacements_message(alloc: Global, replacements: &[&Value]) -> Result<String, AllocError>
    ensures { IfOk result (λ words. string_bytes words ≡ replacements_message (values_behind replacements.now)) }
{
    let Some((first, rest)) = replacements.split_first() else {
        return Ok(String::new(alloc));
    };
    if rest.is_empty() {
        edit_message(alloc, replacement_text(*first))
    } else {
        String::from_str(alloc, "make these changes")
    }
}

/// Returns the edits of replacements. Returns `None` if one location isn't found.
fn replacements_edits<'f, 'v, F: Files>(
    alloc: Global,
    files: &'f F,
    name: &'v str,
    replacements: &[&'v Value],
) -> Result<Option<Vec<FileEdit<'f, 'v>>>, AllocError>
    ensures { IfOk result (λ o. option_map (λ v. v.items) o
        ≡ all_replacement_edits (F.found files.now) name.now (values_behind replacements.now)) }
{
    let mut edits = Vec::new(alloc);
    for replacement in replacements {
        let replacement = *replacement;
        match replacement_edit(files, name, replacement) {
            Some(edit) => push_item(&mut edits, edit)?,
            None => return Ok(None),
        }
    }
    Ok(Some(edits))
}

/// Returns a suggestion with these edits, if there are any.
fn suggestions_of_edits<'f, 'v>(
    alloc: Global,
    words: String,
    edits: Vec<FileEdit<'f, 'v>>,
) -> Result<Vec<Suggestion<'f, 'v>>, AllocError>
    ensures { IfOk result (λ list. list.items ≡ suggestions_of_edits (string_bytes words) edits.entry.items) }
{
    let mut offers = Vec::new(alloc);
    if edits.is_empty() {
        return Ok(offers);
    }
    let offer = Suggestion {
        message: words,
        applicability: Applicability::Unspecified,
        edits,
    };
    push_item(&mut offers, offer)?;
    Ok(offers)
}

/// Returns the suggestions of a comment, and its help. A suggestion that isn't found becomes help.
pub(crate) fn suggestions_and_help<'f, 'v, F: Files>(
    alloc: Global,
    files: &'f F,
    comment: &'v Value,
) -> Result<(Vec<Suggestion<'f, 'v>>, Option<String>), AllocError>
    ensures offers { IfOk result (λ it. it.0.items ≡ comment_suggestions (F.found files.now) (view comment.now)) }
    ensures help { IfOk result (λ it. option_map string_bytes it.1
        ≡ comment_help (F.found files.now) (view comment.now)) }
{
    let replacements = replacements_of(alloc, comment)?;
    let words = replacements_message(alloc, replacements.as_slice())?;
    match replacements_edits(alloc, files, comment_file(comment), replacements.as_slice())? {
        Some(edits) => Ok((suggestions_of_edits(alloc, words, edits)?, None)),
        None => Ok((Vec::new(alloc), Some(words))),
    }
}
