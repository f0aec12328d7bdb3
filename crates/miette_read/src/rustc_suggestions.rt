//! The suggestions of rustc messages.

ghost use Rattle.std.specs.Prelude.{◌≡◌, ◌++◌, IfOk, OnOk, option_map};
ghost use Rattle.std.specs.List.{filter_map};
ghost use Rattle.serde_json.specs.View.{view};
ghost use Rattle.miette_read.specs.rules.RustcReport.{all_span_edits, span_edit, child_suggestion, message_suggestions};
ghost use Rattle.miette_read.specs.rules.RustcReport.{span_applicability};
ghost use Rattle.miette_read.specs.views.Values.{values_behind};

use crate::annotation_spans::message_of;
use crate::files::Files;
use crate::lists::push_item;
use crate::members::{member_objects, member_text};
use crate::spans::{edits_in_child, rustc_location};
use crate::suggestions::{FileEdit, Suggestion};
use miette_fixes::fix::Applicability;
use serde_json::Value;
use std::alloc::{AllocError, Global};

/// Returns the span's applicability (`suggestion_applicability`).
fn span_applicability(span: &Value) -> Applicability
    ensures { result ≡ span_applicability (view span.now) }
{
    match member_text(span, "suggestion_applicability").unwrap_or("") {
        "MachineApplicable" => Applicability::MachineApplicable,
        "MaybeIncorrect" => Applicability::MaybeIncorrect,
        "HasPlaceholders" => Applicability::HasPlaceholders,
        _ => Applicability::Unspecified,
    }
}

/// Returns the edit of a span, if its location is found.
fn span_edit<'f, 'v, F: Files>(files: &'f F, span: &'v Value) -> Option<FileEdit<'f, 'v>>
    ensures { result ≡ span_edit (F.found files.now) (view span.now) }
{
    let text = member_text(span, "suggested_replacement")?;
    FileEdit::found(files, &rustc_location(span), text)
}

/// Returns the edits of spans. Returns `None` if one location isn't found.
fn spans_edits<'f, 'v, F: Files>(
    alloc: Global,
    files: &'f F,
    spans: &[&'v Value],
) -> Result<Option<Vec<FileEdit<'f, 'v>>>, AllocError>
    ensures { IfOk result (λ o. option_map (λ v. v.items) o ≡ all_span_edits (F.found files.now)
        (values_behind spans.now)) }
{
    let mut edits = Vec::new(alloc);
    for span in spans {
        let span = *span;
        match span_edit(files, span) {
            Some(edit) => push_item(&mut edits, edit)?,
            None => return Ok(None),
        }
    }
    Ok(Some(edits))
}

/// Returns the suggestion of a note or help. Returns `None` if it has no edits, or if a location isn't found.
pub fn child_suggestion<'f, 'v, F: Files>(
    alloc: Global,
    files: &'f F,
    child: &'v Value,
) -> Result<Option<Suggestion<'f, 'v>>, AllocError>
    ensures { IfOk result (λ o. o ≡ child_suggestion (F.found files.now) (view child.now)) }
{
    let spans = edits_in_child(alloc, child)?;
    let Some(first) = spans.as_slice().first() else {
        return Ok(None);
    };
    let applicability = span_applicability(*first);
    match spans_edits(alloc, files, spans.as_slice())? {
        Some(edits) => Ok(Some(Suggestion {
            message: String::from_str(alloc, message_of(child))?,
            applicability,
            edits,
        })),
        None => Ok(None),
    }
}

/// Appends the suggestions of these notes and helps.
fn push_suggestions<'f, 'v, F: Files>(
    list: &mut Vec<Suggestion<'f, 'v>>,
    alloc: Global,
    files: &'f F,
    children: &[&'v Value],
) -> Result<(), AllocError>
    ensures { OnOk result (list.new.items
        ≡ list.old.items ++ filter_map (child_suggestion (F.found files.now)) (values_behind children.now)) }
{
    for child in children {
        let child = *child;
        if let Some(offer) = child_suggestion(alloc, files, child)? {
            push_item(list, offer)?;
        }
    }
    Ok(())
}

/// Returns the suggestions of a message.
pub(crate) fn message_suggestions<'f, 'v, F: Files>(
    alloc: Global,
    files: &'f F,
    message: &'v Value,
) -> Result<Vec<Suggestion<'f, 'v>>, AllocError>
    ensures { IfOk result (λ list. list.items ≡ message_suggestions (F.found files.now) (view message.now)) }
{
    let children = member_objects(alloc, message, "children")?;
    let mut list = Vec::new(alloc);
    push_suggestions(&mut list, alloc, files, children.as_slice())?;
    Ok(list)
}
