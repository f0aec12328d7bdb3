//! The messages of suggestions for which the tool gives none.

ghost use Rattle.std.specs.Prelude.{◌≡◌, IfOk, string_bytes};
ghost use Rattle.miette_read.specs.rules.EditMessage.{edit_message, without_end};

use std::alloc::{AllocError, Global};

/// Returns the text without its final line feed.
fn without_end(text: &str) -> &str
    ensures { result.now ≡ without_end text.now }
{
    match text.strip_suffix('\n') {
        Some(front) => front,
        None => text,
    }
}

/// Returns the message of a suggestion with one edit: "write `text`", or `delete this` for an empty text.
pub fn edit_message(alloc: Global, text: &str) -> Result<String, AllocError>
    ensures { IfOk result (λ words. string_bytes words ≡ edit_message text.now) }
{
    if text.is_empty() {
        return String::from_str(alloc, "delete this");
    }
    let mut words = String::from_str(alloc, "write `")?;
    words.push_str(without_end(text))?;
    words.push_str("`")?;
    Ok(words)
}
