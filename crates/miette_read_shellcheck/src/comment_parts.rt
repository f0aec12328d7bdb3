//! The own parts of a ShellCheck comment: text, code, severity, help and URL.

ghost use Rattle.std.specs.Prelude.{◌≡◌, ◌++◌, IfOk, decimal, option_map, string_bytes};
ghost use Rattle.serde_json.specs.View.{view};
ghost use Rattle.miette_read_shellcheck.specs.rules.Comments.{with_code_number, message_of, comment_parts};
ghost use Rattle.miette_read_shellcheck.specs.rules.Comments.{level_severity};

use miette_lines::numbers::push_number;
use miette_protocol::protocol::Severity;
use miette_read::members::{member_number, member_text};
use miette_read::reports::MessageParts;
use serde_json::Value;
use std::alloc::{AllocError, Global};

// The URL of a code's page, without the number.
const PAGE: &str = "https://www.shellcheck.net/wiki/SC";

/// Returns the text of a comment, or an empty text.
fn message_of(comment: &Value) -> &str
    ensures { result.now ≡ message_of (view comment.now) }
{
    member_text(comment, "message").unwrap_or("")
}

/// Returns the severity of a comment's level. Every level other than `error` is a warning.
fn level_severity(level: &str) -> Severity
    ensures { result ≡ level_severity level.now }
{
    match level {
        "error" => Severity::Error,
        _ => Severity::Warning,
    }
}

/// Returns the text followed by a number.
fn numbered(alloc: Global, text: &str, number: u64) -> Result<String, AllocError>
    ensures { IfOk result (λ it. string_bytes it ≡ text.now ++ decimal number) }
{
    let mut numbered = String::from_str(alloc, text)?;
    push_number(&mut numbered, number as usize)?;
    Ok(numbered)
}

/// Returns the text followed by the comment's code number, if it has one.
fn with_code_number(
    alloc: Global,
    text: &str,
    comment: &Value,
) -> Result<Option<String>, AllocError>
    ensures { IfOk result (λ o. option_map string_bytes o ≡ with_code_number text.now (view comment.now)) }
{
    match member_number(comment, "code") {
        Some(number) => Ok(Some(numbered(alloc, text, number)?)),
        None => Ok(None),
    }
}

/// Returns the own parts of a comment, with this help.
pub(crate) fn comment_parts(
    alloc: Global,
    help: Option<String>,
    comment: &Value,
) -> Result<MessageParts, AllocError>
    ensures { IfOk result (λ it. it ≡ comment_parts (option_map string_bytes help) (view comment.now)) }
{
    let message = String::from_str(alloc, message_of(comment))?;
    let code = with_code_number(alloc, "SC", comment)?;
    let url = with_code_number(alloc, PAGE, comment)?;
    Ok(MessageParts {
        message,
        code,
        severity: level_severity(member_text(comment, "level").unwrap_or("")),
        help,
        url,
    })
}
