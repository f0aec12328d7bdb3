//! Locations of ShellCheck's comments and replacements.

ghost use Rattle.std.specs.Prelude.{◌≡◌};
ghost use Rattle.serde_json.specs.View.{view};
ghost use Rattle.miette_read_shellcheck.specs.rules.Comments.{number_or_zero, comment_file, comment_location};
ghost use Rattle.miette_read_shellcheck.specs.rules.Comments.{comment_range};

use crate::columns::offset_at;
use miette_read::files::Files;
use miette_read::location::{ByteRange, ToolLocation};
use miette_read::members::{member_number, member_text};
use serde_json::Value;

/// Returns the number at a key, or 0.
fn number_or_zero(value: &Value, key: &str) -> u64
    ensures { result ≡ number_or_zero key.now (view value.now) }
{
    member_number(value, key).unwrap_or(0)
}

/// Returns the range of a comment or replacement. It ends before the byte of its end column.
fn comment_range(bytes: &[u8], value: &Value) -> Option<ByteRange>
    ensures { result ≡ comment_range bytes.now (view value.now) }
{
    let start = offset_at(
        bytes,
        number_or_zero(value, "line"),
        number_or_zero(value, "column"),
    )?;
    let end = offset_at(
        bytes,
        number_or_zero(value, "endLine"),
        number_or_zero(value, "endColumn"),
    )?;
    Some(ByteRange { start, end })
}

/// Returns the location of a comment or replacement in a file.
pub(crate) fn comment_location<'v, F: Files>(
    files: &F,
    name: &'v str,
    value: &Value,
) -> ToolLocation<'v>
    ensures { result ≡ comment_location (F.found files.now) name.now (view value.now) }
{
    let stretch = match files.find(name) {
        Some(file) => comment_range(file.bytes(), value),
        None => None,
    };
    ToolLocation {
        name,
        stretch,
        line: number_or_zero(value, "line"),
        column: number_or_zero(value, "column"),
    }
}

/// Returns the name of a comment's file.
pub(crate) fn comment_file(comment: &Value) -> &str
    ensures { result.now ≡ comment_file (view comment.now) }
{
    member_text(comment, "file").unwrap_or("")
}
