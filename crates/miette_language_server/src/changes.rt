//! Applies the client's changes to a text.

ghost use Rattle.std.specs.Prelude.{◌≡◌, IfOk, drop, map, take};
ghost use Rattle.serde_json.specs.View.{view};
ghost use Rattle.miette_language_server.specs.rules.Changes.{changed, apply_changes, offset, replace_region, spliced};

use crate::members::{region_at, text_at};
use miette_positions::position::{Position, PositionEncoding, Region};
use miette_positions::spans::clamped_offset;
use serde_json::Value;
use std::alloc::{AllocError, Global};

// Offset of a position, moved into the source.
fn offset(source: &[u8], position: Position) -> usize
    ensures { result ≡ offset source.now position }
{
    clamped_offset(position, source, PositionEncoding::Utf16)
}

// Replaces the bytes between two offsets by a text.
fn spliced(
    alloc: Global,
    source: &[u8],
    from: usize,
    to: usize,
    text: &str,
) -> Result<Vec<u8>, AllocError>
    ensures { IfOk result (λ made. made.items ≡ spliced source.now from to text.now) }
{
    let mut made = Vec::new(alloc);
    made.extend_from_slice(before(source, from))?;
    made.extend_from_slice(text.as_bytes())?;
    made.extend_from_slice(after_offset(source, from.max(to)))?;
    Ok(made)
}

// The bytes before an offset, or all if it is beyond the end.
fn before(source: &[u8], at: usize) -> &[u8]
    ensures { result.now ≡ take at source.now }
{
    if at < source.len() {
        &source[..at]
    } else {
        source
    }
}

// The bytes from an offset on, or none if it is beyond the end.
fn after_offset(source: &[u8], at: usize) -> &[u8]
    ensures { result.now ≡ drop at source.now }
{
    if at < source.len() {
        &source[at..]
    } else {
        &[]
    }
}

// Replaces a region of the source, or all of it, by a text.
fn replace_region(
    alloc: Global,
    source: &[u8],
    text: &str,
    region: Option<Region>,
) -> Result<Vec<u8>, AllocError>
    ensures { IfOk result (λ made. made.items ≡ replace_region source.now text.now region) }
{
    match region {
        Some(region) => {
            let from = offset(source, region.start);
            let to = offset(source, region.end);
            spliced(alloc, source, from, to, text)
        }
        None => Vec::from_slice(alloc, text.as_bytes()),
    }
}

// Applies a change to a source.
fn changed(alloc: Global, source: Vec<u8>, change: &Value) -> Result<Vec<u8>, AllocError>
    ensures { IfOk result (λ made. made.items ≡ changed source.items (view change.now)) }
{
    match text_at(change, "/text") {
        Some(text) => replace_region(alloc, source.as_slice(), text, region_at(change, "/range")),
        None => Ok(source),
    }
}

/// Applies changes to a source, one after another.
///
/// # Errors
/// `AllocError` if allocation for the text fails.
pub(crate) fn apply_changes(
    alloc: Global,
    source: &[u8],
    changes: &[Value],
) -> Result<Vec<u8>, AllocError>
    ensures { IfOk result (λ made. made.items ≡ apply_changes source.now (map view changes.now)) }
{
    let mut made = Vec::from_slice(alloc, source)?;
    for change in changes {
        made = changed(alloc, made, change)?;
    }
    Ok(made)
}
