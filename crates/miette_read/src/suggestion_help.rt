//! The help lines of suggestions that aren't found.

ghost use Rattle.std.specs.Prelude.{◌≡◌, ◌++◌, IfOk, OnOk, codes, string_bytes};
ghost use Rattle.std.specs.Option.{option_copied};
ghost use Rattle.serde_json.specs.View.{view};
ghost use Rattle.miette_read.specs.rules.RustcReport.{child_help_row, is_short, quoted, short_text, short_texts};
ghost use Rattle.miette_read.specs.views.Values.{texts};

use crate::annotation_spans::message_of;
use crate::lists::push_item;
use crate::members::member_text;
use crate::spans::edits_in_child;
use serde_json::Value;
use std::alloc::{AllocError, Global};

/// Returns whether a text fits on a line: it is nonempty and has no line feed.
fn is_short(text: &str) -> bool
    ensures { result ≡ is_short text.now }
{
    !text.is_empty() && !text.as_bytes().contains(&b'\n')
}

/// Returns the replacement of an edit, if it fits on a line.
fn short_text(span: &Value) -> Option<&str>
    ensures { option_copied result ≡ short_text (view span.now) }
{
    let text = member_text(span, "suggested_replacement")?;
    if is_short(text) { Some(text) } else { None }
}

/// Returns the replacements of a suggestion that fit on a line.
fn short_texts<'v>(alloc: Global, child: &'v Value) -> Result<Vec<&'v str>, AllocError>
    ensures { IfOk result (λ list. texts list.items ≡ short_texts (view child.now)) }
{
    let edits = edits_in_child(alloc, child)?;
    let mut list = Vec::new(alloc);
    for span in edits.as_slice() {
        let span = *span;
        if let Some(text) = short_text(span) {
            push_item(&mut list, text)?;
        }
    }
    Ok(list)
}

/// Appends `front` and the text in backquotes.
fn push_quoted(row: &mut String, front: &str, text: &str) -> Result<(), AllocError>
    ensures { OnOk result (string_bytes row.new ≡ string_bytes row.old ++ (front.now ++ quoted text.now)) }
{
    row.push_str(front)?;
    row.push_str("`")?;
    row.push_str(text)?;
    row.push_str("`")
}

/// Returns the message of a help or suggestion, followed by its replacements that fit on a line.
pub(crate) fn child_help_row(alloc: Global, child: &Value) -> Result<String, AllocError>
    ensures { IfOk result (λ row. string_bytes row ≡ child_help_row (view child.now)) }
{
    let mut row = String::from_str(alloc, message_of(child))?;
    let texts = short_texts(alloc, child)?;
    let Some((first, rest)) = texts.as_slice().split_first() else {
        return Ok(row);
    };
    push_quoted(&mut row, ": ", *first)?;
    for text in rest {
        let text = *text;
        push_quoted(&mut row, ", ", text)?;
    }
    Ok(row)
}
