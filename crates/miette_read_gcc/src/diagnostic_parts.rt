//! The own parts of a GCC diagnostic: text, code, severity, help and URL.

ghost use Rattle.std.specs.Prelude.{◌≡◌, IfOk, OnOk, map, option_map, string_bytes};
ghost use Rattle.serde_json.specs.View.{view};
ghost use Rattle.miette_read_gcc.specs.rules.GccReport.{diagnostic_help, diagnostic_parts, kind_severity, with_help};
ghost use Rattle.miette_read_gcc.specs.views.GccContexts.{gcc_context};

use crate::diagnostic_annotations::message_of;
use crate::fixits::{fixits_edits, fixits_message};
use crate::points::GccContext;
use miette_protocol::protocol::Severity;
use miette_read::files::Files;
use miette_read::location::join_rows;
use miette_read::members::{copy_text, member_objects, member_text};
use miette_read::reports::MessageParts;
use miette_read::rows::push_row_once;
use serde_json::Value;
use std::alloc::{AllocError, Global};

/// Returns the severity of a diagnostic's `kind`.
fn kind_severity(kind: &str) -> Severity
    ensures { result ≡ kind_severity kind.now }
{
    match kind {
        "error"
        | "fatal error"
        | "internal compiler error"
        | "sorry, unimplemented"
        | "permerror" => Severity::Error,
        "warning" | "pedwarn" => Severity::Warning,
        _ => Severity::Advice,
    }
}

/// Appends the message of a suggestion that isn't found.
fn push_help<F: Files>(
    rows: &mut Vec<String>,
    alloc: Global,
    context: &GccContext<'_, F>,
    value: &Value,
) -> Result<(), AllocError>
    ensures { OnOk result (map string_bytes rows.new.items
        ≡ with_help (gcc_context F.found context.now) (map string_bytes rows.old.items) (view value.now)) }
{
    let fixits = member_objects(alloc, value, "fixits")?;
    if fixits_edits(alloc, context, fixits.as_slice())?.is_some() {
        return Ok(());
    }
    let words = fixits_message(alloc, fixits.as_slice())?;
    push_row_once(rows, alloc, words.as_str())
}

/// Returns the messages of suggestions that aren't found, each once.
fn diagnostic_help<F: Files>(
    alloc: Global,
    context: &GccContext<'_, F>,
    diagnostic: &Value,
) -> Result<Option<String>, AllocError>
    ensures { IfOk result (λ help. option_map string_bytes help
        ≡ diagnostic_help (gcc_context F.found context.now) (view diagnostic.now)) }
{
    let notes = member_objects(alloc, diagnostic, "children")?;
    let mut rows = Vec::new(alloc);
    push_help(&mut rows, alloc, context, diagnostic)?;
    for note in notes.as_slice() {
        push_help(&mut rows, alloc, context, *note)?;
    }
    join_rows(alloc, rows.as_slice())
}

/// Returns the own parts of a diagnostic.
pub(crate) fn diagnostic_parts<F: Files>(
    alloc: Global,
    context: &GccContext<'_, F>,
    diagnostic: &Value,
) -> Result<MessageParts, AllocError>
    ensures { IfOk result (λ it. it ≡ diagnostic_parts (gcc_context F.found context.now) (view diagnostic.now)) }
{
    let message = String::from_str(alloc, message_of(diagnostic))?;
    let code = copy_text(alloc, member_text(diagnostic, "option"))?;
    let url = copy_text(alloc, member_text(diagnostic, "option_url"))?;
    let help = diagnostic_help(alloc, context, diagnostic)?;
    Ok(MessageParts {
        message,
        code,
        severity: kind_severity(member_text(diagnostic, "kind").unwrap_or("")),
        help,
        url,
    })
}
