//! Lists of text lines.

ghost use Rattle.std.specs.Prelude.{◌≡◌, ◌++◌, ◌∷◌, [], OnOk, map, string_bytes, bytes_eq};
ghost use Rattle.std.specs.List.{list_any};
ghost use Rattle.miette_read.specs.rules.AnnotationLabels.{with_row, with_rows};

use crate::lists::push_item;
use std::alloc::{AllocError, Global};

/// Returns whether two lines are equal.
fn is_row(row: &str, other: &String) -> bool
    ensures { result ≡ bytes_eq row.now (string_bytes other.now) }
{
    row == other.as_str()
}

/// Returns whether a line is in the list.
fn has_row(rows: &[String], row: &str) -> bool
    ensures { result ≡ list_any (bytes_eq row.now) (map string_bytes rows.now) }
{
    rows.iter().any(|other| is_row(row, other))
}

/// Appends a copy of a line.
///
/// # Errors
/// `AllocError` if allocation fails.
pub fn push_row_copy(rows: &mut Vec<String>, alloc: Global, row: &str) -> Result<(), AllocError>
    ensures { OnOk result (map string_bytes rows.new.items ≡ map string_bytes rows.old.items ++ row.now ∷ []) }
{
    let copy = String::from_str(alloc, row)?;
    push_item(rows, copy)
}

/// Appends a copy of a line, unless it is in the list already.
///
/// # Errors
/// `AllocError` if allocation fails.
pub fn push_row_once(rows: &mut Vec<String>, alloc: Global, row: &str) -> Result<(), AllocError>
    ensures { OnOk result (map string_bytes rows.new.items ≡ with_row (map string_bytes rows.old.items) row.now) }
{
    if has_row(rows, row) {
        return Ok(());
    }
    push_row_copy(rows, alloc, row)
}

/// Appends copies of the lines that aren't in the list yet.
///
/// # Errors
/// `AllocError` if allocation fails.
pub fn push_rows_once(
    rows: &mut Vec<String>,
    alloc: Global,
    more: &[String],
) -> Result<(), AllocError>
    ensures { OnOk result (map string_bytes rows.new.items
        ≡ with_rows (map string_bytes rows.old.items) (map string_bytes more.now)) }
{
    for row in more {
        push_row_once(rows, alloc, row.as_str())?;
    }
    Ok(())
}
