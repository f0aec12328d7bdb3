//! The JSON value of a part.

ghost use Rattle.std.specs.Prelude.{◌≡◌, IfOk, IfSome, IsUtf8, None, OnErr, Some};
ghost use Rattle.miette_show_rows.specs.rules.Values.{read};
ghost use Rattle.serde_json.specs.View.{view};
ghost use Rattle.miette_show_rows.specs.rules.Rows.{begins_array, begins_object, without_byte_order_mark};

use crate::parts::{begins_with_bracket, is_utf16, without_byte_order_mark};
use miette_devices::fault::ProgramError;
use serde_json::Value;
use std::alloc::Global;

/// Returns whether a part starts like a message of rustc, cargo or ShellCheck or a SARIF log. Also true for UTF-16,
/// which isn't read.
pub fn begins_object(row: &[u8]) -> bool
    ensures { result ≡ begins_object row.now }
{
    begins_with_bracket(b'{', without_byte_order_mark(row)) || is_utf16(row)
}

/// Returns whether a part starts like GCC's output. Also true for UTF-16, which isn't read.
pub fn begins_array(row: &[u8]) -> bool
    ensures { result ≡ begins_array row.now }
{
    begins_with_bracket(b'[', without_byte_order_mark(row)) || is_utf16(row)
}

/// Returns the part as text without a byte order mark, if it is UTF-8.
fn text_in(row: &[u8]) -> Option<&str>
    ensures some { IfSome result (λ text. IsUtf8 row.now × (text.now ≡ without_byte_order_mark row.now)) }
    ensures none { result ≡ None → ¬ (IsUtf8 row.now) }
{
    match str::from_utf8(without_byte_order_mark(row)) {
        Ok(text) => Some(text),
        Err(_) => None,
    }
}

/// Parses a part as JSON, without a byte order mark. Returns `None` if it isn't JSON.
///
/// # Errors
/// `Memory` if allocation fails.
pub fn parse_value(alloc: Global, row: &[u8]) -> Result<Option<Value>, ProgramError>
    ensures some { IfOk result (λ o. IfSome o (λ v. IsUtf8 row.now × (read row.now ≡ Some (view v)))) }
    ensures none { (result ≡ Ok None) → IsUtf8 row.now → read row.now ≡ None }
    ensures others { OnErr result (result ≡ Err ProgramError.Memory) }
{
    let Some(text) = text_in(row) else {
        return Ok(None);
    };
    match Value::from_str(alloc, text) {
        Ok(value) => Ok(Some(value)),
        Err(error) if error.is_memory() => Err(ProgramError::Memory),
        Err(_) => Ok(None),
    }
}
