//! The fix-its of GCC's diagnostics, as suggestions.

ghost use Rattle.std.specs.Prelude.{◌≡◌, ◌++◌, [], IfOk, OnOk, option_map, string_bytes};
ghost use Rattle.std.specs.List.{cons_option, filter_map};
ghost use Rattle.serde_json.specs.View.{view};
ghost use Rattle.miette_read.specs.views.Values.{values_behind};
ghost use Rattle.miette_read_gcc.specs.rules.GccReport.{all_fixit_edits, fixit_edit, fixit_text, diagnostic_suggestion};
ghost use Rattle.miette_read_gcc.specs.rules.GccReport.{diagnostic_suggestions};
ghost use Rattle.miette_read_gcc.specs.rules.GccReport.{fixits_message};
ghost use Rattle.miette_read_gcc.specs.views.GccContexts.{gcc_context};

use crate::points::GccContext;
use miette_fixes::fix::Applicability;
use miette_read::edit_message::edit_message;
use miette_read::files::Files;
use miette_read::lists::push_item;
use miette_read::members::{member_objects, member_text};
use miette_read::suggestions::{FileEdit, Suggestion};
use serde_json::Value;
use std::alloc::{AllocError, Global};

/// Returns the text that a fix-it writes.
fn fixit_text(fixit: &Value) -> &str
    ensures { result.now ≡ fixit_text (view fixit.now) }
{
    member_text(fixit, "string").unwrap_or("")
}

/// Returns the edit of a fix-it, if its location is found.
fn fixit_edit<'f, 'v, F: Files>(
    context: &GccContext<'f, F>,
    fixit: &'v Value,
) -> Option<FileEdit<'f, 'v>>
    ensures { result ≡ fixit_edit (gcc_context F.found context.now) (view fixit.now) }
{
    let place = context.fixit_location(fixit);
    FileEdit::found(context.files, &place, fixit_text(fixit))
}

/// Returns the message of a suggestion with these fix-its. GCC gives none.
pub(crate) fn fixits_message(alloc: Global, fixits: &[&Value]) -> Result<String, AllocError>
    ensures { IfOk result (λ words. string_bytes words ≡ fixits_message (values_behind fixits.now)) }
{
    let Some((first, rest)) = fixits.split_first() else {
        return Ok(String::new(alloc));
    };
    if rest.is_empty() {
        edit_message(alloc, fixit_text(*first))
    } else {
        String::from_str(alloc, "make these changes")
    }
}

/// Returns the edits of fix-its. Returns `None` if one location isn't found.
pub(crate) fn fixits_edits<'f, 'v, F: Files>(
    alloc: Global,
    context: &GccContext<'f, F>,
    fixits: &[&'v Value],
) -> Result<Option<Vec<FileEdit<'f, 'v>>>, AllocError>
    ensures { IfOk result (λ o. option_map (λ v. v.items) o ≡ all_fixit_edits (gcc_context F.found context.now)
        (values_behind fixits.now)) }
{
    let mut edits = Vec::new(alloc);
    for fixit in fixits {
        let fixit = *fixit;
        match fixit_edit(context, fixit) {
            Some(edit) => push_item(&mut edits, edit)?,
            None => return Ok(None),
        }
    }
    Ok(Some(edits))
}

/// Returns the suggestion of a diagnostic or note. Returns `None` if it has no fix-its, or if a location isn't found.
fn diagnostic_suggestion<'f, 'v, F: Files>(
    alloc: Global,
    context: &GccContext<'f, F>,
    value: &'v Value,
) -> Result<Option<Suggestion<'f, 'v>>, AllocError>
    ensures { IfOk result (λ o. o ≡ diagnostic_suggestion (gcc_context F.found context.now) (view value.now)) }
{
    let fixits = member_objects(alloc, value, "fixits")?;
    if fixits.is_empty() {
        return Ok(None);
    }
    match fixits_edits(alloc, context, fixits.as_slice())? {
        Some(edits) => Ok(Some(Suggestion {
            message: fixits_message(alloc, fixits.as_slice())?,
            applicability: Applicability::Unspecified,
            edits,
        })),
        None => Ok(None),
    }
}

/// Appends the suggestion of a diagnostic or note.
fn push_suggestion<'f, 'v, F: Files>(
    list: &mut Vec<Suggestion<'f, 'v>>,
    alloc: Global,
    context: &GccContext<'f, F>,
    value: &'v Value,
) -> Result<(), AllocError>
    ensures { OnOk result (list.new.items ≡ list.old.items
        ++ cons_option (diagnostic_suggestion (gcc_context F.found context.now) (view value.now)) []) }
{
    match diagnostic_suggestion(alloc, context, value)? {
        Some(offer) => push_item(list, offer),
        None => Ok(()),
    }
}

/// Appends the suggestions of notes.
fn push_suggestions<'f, 'v, F: Files>(
    list: &mut Vec<Suggestion<'f, 'v>>,
    alloc: Global,
    context: &GccContext<'f, F>,
    notes: &[&'v Value],
) -> Result<(), AllocError>
    ensures { OnOk result (list.new.items ≡ list.old.items
        ++ filter_map (diagnostic_suggestion (gcc_context F.found context.now)) (values_behind notes.now)) }
{
    for note in notes {
        push_suggestion(list, alloc, context, *note)?;
    }
    Ok(())
}

/// Returns the suggestions of a diagnostic and its notes.
pub(crate) fn diagnostic_suggestions<'f, 'v, F: Files>(
    alloc: Global,
    context: &GccContext<'f, F>,
    diagnostic: &'v Value,
) -> Result<Vec<Suggestion<'f, 'v>>, AllocError>
    ensures { IfOk result (λ list. list.items ≡ diagnostic_suggestions (gcc_context F.found context.now)
        (view diagnostic.now)) }
{
    let notes = member_objects(alloc, diagnostic, "children")?;
    let mut list = Vec::new(alloc);
    push_suggestion(&mut list, alloc, context, diagnostic)?;
    push_suggestions(&mut list, alloc, context, notes.as_slice())?;
    Ok(list)
}
