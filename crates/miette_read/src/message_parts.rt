//! The own parts of a rustc message: text, code, severity and help.

ghost use Rattle.std.specs.Prelude.{◌≡◌, IfOk, map, option_map, string_bytes};
ghost use Rattle.std.specs.Option.{option_copied};
ghost use Rattle.serde_json.specs.View.{view};
ghost use Rattle.miette_read.specs.rules.RustcReport.{code_of, message_help, help_rows, helps, level_of, message_parts};
ghost use Rattle.miette_read.specs.rules.RustcReport.{severity_of};
ghost use Rattle.miette_read.specs.views.Values.{values_behind};

use crate::annotation_spans::{is_help, message_of};
use crate::files::Files;
use crate::location::join_rows;
use crate::members::{copy_text, member_objects, member_text, member_value};
use crate::reports::MessageParts;
use crate::rows::push_row_once;
use crate::rustc_suggestions::child_suggestion;
use crate::spans::edits_in_child;
use crate::suggestion_help::child_help_row;
use miette_protocol::protocol::Severity;
use serde_json::Value;
use std::alloc::{AllocError, Global};

/// Returns the message's level, or an empty text.
pub(crate) fn level_of(message: &Value) -> &str
    ensures { result.now ≡ level_of (view message.now) }
{
    member_text(message, "level").unwrap_or("")
}

/// Returns the message's severity.
fn severity_of(message: &Value) -> Severity
    ensures { result ≡ severity_of (view message.now) }
{
    match level_of(message) {
        "error" | "error: internal compiler error" => Severity::Error,
        "warning" => Severity::Warning,
        _ => Severity::Advice,
    }
}

/// Returns the message's code.
pub(crate) fn code_of(message: &Value) -> Option<&str>
    ensures { option_copied result ≡ code_of (view message.now) }
{
    member_text(member_value(message, "code")?, "code")
}

/// Returns whether a child is shown as help: a help without spans, or a suggestion that isn't found.
fn helps<F: Files>(alloc: Global, files: &F, child: &Value) -> Result<bool, AllocError>
    ensures { IfOk result (λ told. told ≡ helps (F.found files.now) (view child.now)) }
{
    if edits_in_child(alloc, child)?.is_empty() {
        let spans = member_objects(alloc, child, "spans")?;
        return Ok(is_help(child) && spans.is_empty());
    }
    let offer = child_suggestion(alloc, files, child)?;
    Ok(offer.is_none())
}

/// Returns the help lines of these notes and helps, each once.
fn help_rows<F: Files>(
    alloc: Global,
    files: &F,
    children: &[&Value],
) -> Result<Vec<String>, AllocError>
    ensures { IfOk result (λ rows. map string_bytes rows.items
        ≡ help_rows (F.found files.now) (values_behind children.now)) }
{
    let mut rows = Vec::new(alloc);
    for child in children {
        let child = *child;
        if helps(alloc, files, child)? {
            let row = child_help_row(alloc, child)?;
            push_row_once(&mut rows, alloc, row.as_str())?;
        }
    }
    Ok(rows)
}

/// Returns the help text: helps without spans, and suggestions that aren't found.
fn helps_of<F: Files>(
    alloc: Global,
    files: &F,
    message: &Value,
) -> Result<Option<String>, AllocError>
    ensures { IfOk result (λ help. option_map string_bytes help ≡ message_help (F.found files.now) (view message.now)) }
{
    let children = member_objects(alloc, message, "children")?;
    let rows = help_rows(alloc, files, children.as_slice())?;
    join_rows(alloc, rows.as_slice())
}

/// Returns the own parts of a message.
pub(crate) fn message_parts<F: Files>(
    alloc: Global,
    files: &F,
    message: &Value,
) -> Result<MessageParts, AllocError>
    ensures { IfOk result (λ it. it ≡ message_parts (F.found files.now) (view message.now)) }
{
    let text = String::from_str(alloc, message_of(message))?;
    let code = copy_text(alloc, code_of(message))?;
    let help = helps_of(alloc, files, message)?;
    Ok(MessageParts {
        message: text,
        code,
        severity: severity_of(message),
        help,
        url: None,
    })
}
