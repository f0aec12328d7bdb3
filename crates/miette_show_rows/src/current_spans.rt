//! Spans whose lines haven't changed since rustc read them.

ghost use Rattle.std.specs.Prelude.{◌≡◌, ◌≤◌, IfOk, Some, length};
ghost use Rattle.std.specs.List.{list_all};
ghost use Rattle.std.specs.Option.{option_copied};
ghost use Rattle.serde_json.specs.View.{view};
ghost use Rattle.miette_read.specs.views.Values.{values_behind};
ghost use Rattle.miette_show_rows.specs.rules.CurrentSpans.{after_end, after_row, begin_with, column_after, is_first};
ghost use Rattle.miette_show_rows.specs.rules.CurrentSpans.{is_span_current, row_start, row_text, rows_stand_in};
ghost use Rattle.miette_show_rows.specs.rules.CurrentSpans.{stand_in};

use memchr::memrchr;
use miette_read::files::Files;
use miette_read::members::{member_number, member_objects, member_text};
use serde_json::Value;
use std::alloc::{AllocError, Global};

/// Returns the start of the line with this offset.
fn row_start(bytes: &[u8], offset: usize) -> usize
    requires { offset ≤ length bytes.now }
    ensures start { result ≡ row_start bytes.now offset }
    ensures order { result ≤ offset }
{
    match memrchr(b'\n', &bytes[..offset]) {
        Some(at) => at + 1,
        None => 0,
    }
}

/// Returns the bytes after a line's end. Returns `None` if there is no line end.
fn after_end(rest: &[u8]) -> Option<&[u8]>
    ensures { option_copied result ≡ after_end rest.now }
{
    if rest.is_empty() {
        Some(rest)
    } else if rest.starts_with(b"\n") {
        Some(&rest[1..])
    } else if rest.starts_with(b"\r\n") {
        Some(&rest[2..])
    } else {
        None
    }
}

/// Returns the bytes after a line and its end, if `bytes` start with them.
fn after_row<'b>(row: &str, bytes: &'b [u8]) -> Option<&'b [u8]>
    ensures { option_copied result ≡ after_row row.now bytes.now }
{
    let row = row.as_bytes();
    if bytes.starts_with(row) {
        after_end(&bytes[row.len()..])
    } else {
        None
    }
}

/// Returns the text of a line that rustc read.
fn row_text(row: &Value) -> &str
    ensures { result.now ≡ row_text (view row.now) }
{
    member_text(row, "text").unwrap_or("")
}

/// Returns whether the bytes start with these lines.
fn begin_with(rows: &[&Value], bytes: &[u8]) -> bool
    ensures { result ≡ begin_with (values_behind rows.now) bytes.now }
{
    let mut rest = bytes;
    for row in rows {
        let row = *row;
        match after_row(row_text(row), rest) {
            Some(after) => rest = after,
            None => return false,
        }
    }
    true
}

/// Returns whether a byte is the first one of a UTF-8 character.
fn is_first(byte: u8) -> bool
    ensures { result ≡ is_first byte }
{
    byte < 128 || 192 <= byte
}

/// Returns the one-based column after these bytes of a line.
fn column_after(bytes: &[u8]) -> usize
    ensures { result ≡ column_after bytes.now }
{
    let mut column = 1;
    for byte in bytes {
        if is_first(*byte) {
            column += 1;
        }
    }
    column
}

/// Returns whether the offset is at this column of its line, and these lines start there.
fn stand_in(bytes: &[u8], offset: usize, column: u64, rows: &[&Value]) -> bool
    ensures { result ≡ stand_in bytes.now offset column (values_behind rows.now) }
{
    if offset > bytes.len() {
        return false;
    }
    let start = row_start(bytes, offset);
    column_after(&bytes[start..offset]) as u64 == column && begin_with(rows, &bytes[start..])
}

/// Returns the same, but false without lines.
fn rows_stand_in(bytes: &[u8], offset: usize, column: u64, rows: &[&Value]) -> bool
    ensures { result ≡ rows_stand_in bytes.now offset column (values_behind rows.now) }
{
    if rows.is_empty() {
        return false;
    }
    stand_in(bytes, offset, column, rows)
}

/// Returns whether the file still has the lines that rustc read at the span, at the same offset and column.
pub fn is_span_current<F: Files>(alloc: Global, files: &F, span: &Value) -> Result<bool, AllocError>
    ensures { IfOk result (λ b. b ≡ is_span_current (F.found files.now) (view span.now)) }
{
    let Some(file) = files.find(member_text(span, "file_name").unwrap_or("")) else {
        return Ok(false);
    };
    let Some(offset) = member_number(span, "byte_start") else {
        return Ok(false);
    };
    let column = member_number(span, "column_start").unwrap_or(0);
    let rows = member_objects(alloc, span, "text")?;
    Ok(rows_stand_in(file.bytes(), offset as usize, column, rows.as_slice()))
}

/// Returns whether that is so for all spans.
pub(crate) fn are_spans_current<F: Files>(
    alloc: Global,
    files: &F,
    spans: &[&Value],
) -> Result<bool, AllocError>
    ensures { IfOk result (λ b. b ≡ list_all (is_span_current (F.found files.now)) (values_behind spans.now)) }
{
    for span in spans {
        let span = *span;
        if !is_span_current(alloc, files, span)? {
            return Ok(false);
        }
    }
    Ok(true)
}
