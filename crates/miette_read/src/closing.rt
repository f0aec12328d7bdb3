//! Rustc's closing messages.

ghost use Rattle.std.specs.Prelude.{◌≡◌, IfOk};
ghost use Rattle.serde_json.specs.View.{view};
ghost use Rattle.miette_read.specs.rules.Members.{member_objects};
ghost use Rattle.miette_read.specs.rules.Rustc.{is_empty};
ghost use Rattle.miette_read.specs.rules.RustcReport.{is_bare, is_closing_message, is_count_message};

use crate::annotation_spans::message_of;
use crate::members::member_objects;
use crate::message_parts::{code_of, level_of};
use crate::user_span::{begins_with, ends_with};
use serde_json::Value;
use std::alloc::{AllocError, Global};

/// Returns whether a text counts errors or warnings.
fn is_count_message(text: &str) -> bool
    ensures { result ≡ is_count_message text.now }
{
    let text = text.as_bytes();
    begins_with(text, "aborting due to ".as_bytes())
        || (ends_with(text, " warning emitted".as_bytes())
            || ends_with(text, " warnings emitted".as_bytes()))
}

/// Returns whether the list at a key has no objects.
fn has_none(alloc: Global, message: &Value, key: &str) -> Result<bool, AllocError>
    ensures { IfOk result (λ none. none ≡ is_empty (member_objects key.now (view message.now))) }
{
    let objects = member_objects(alloc, message, key)?;
    Ok(objects.is_empty())
}

/// Returns whether a message has no spans, no code and no children.
fn is_bare(alloc: Global, message: &Value) -> Result<bool, AllocError>
    ensures { IfOk result (λ bare. bare ≡ is_bare (view message.now)) }
{
    if !has_none(alloc, message, "spans")? {
        return Ok(false);
    }
    if !has_none(alloc, message, "children")? {
        return Ok(false);
    }
    Ok(code_of(message).is_none())
}

/// Returns whether a message only counts the messages before it, like `aborting due to 2 errors`.
pub(crate) fn is_closing_message(alloc: Global, message: &Value) -> Result<bool, AllocError>
    ensures { IfOk result (λ closing. closing ≡ is_closing_message (view message.now)) }
{
    if level_of(message) == "failure-note" {
        return Ok(true);
    }
    if !is_count_message(message_of(message)) {
        return Ok(false);
    }
    is_bare(alloc, message)
}
