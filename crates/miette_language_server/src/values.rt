//! Positions, edits and fixes as values of the Language Server Protocol.

ghost use Rattle.std.specs.Prelude.{◌≡◌, IfOk, map};
ghost use Rattle.serde_json.specs.View.{view};
ghost use Rattle.miette_language_server.specs.rules.Values.{edit_value, edits_value, fix_value, empty_region, part};
ghost use Rattle.miette_language_server.specs.rules.Values.{position_value, range_value};

use crate::objects::{list_value, object_with, object_with_text, with_text, with_value};
use miette_fixes::fix::{Edit, Fix};
use miette_positions::index::PositionIndex;
use miette_positions::position::{Position, Region};
use miette_protocol::protocol::SourceSpan;
use serde_json::{Map, Value, push};
use std::alloc::{AllocError, Global};

// Converts a position.
fn position_value(alloc: Global, position: Position) -> Result<Value, AllocError>
    ensures { IfOk result (λ value. view value ≡ position_value position) }
{
    let it = with_value(alloc, Map::new(alloc), "line", Value::from(position.line))?;
    object_with(alloc, it, "character", Value::from(position.column))
}

/// Converts a region to a range.
pub(crate) fn range_value(alloc: Global, region: Region) -> Result<Value, AllocError>
    ensures { IfOk result (λ value. view value ≡ range_value region) }
{
    let start = position_value(alloc, region.start)?;
    let it = with_value(alloc, Map::new(alloc), "start", start)?;
    let end = position_value(alloc, region.end)?;
    object_with(alloc, it, "end", end)
}

// The empty region at the beginning of a source.
fn empty_region() -> Region
    ensures { result ≡ empty_region }
{
    let start = Position { line: 0, column: 0 };
    Region { start, end: start }
}

/// Returns the region of a span.
pub(crate) fn part(source: &PositionIndex<'_>, span: SourceSpan) -> Region
    ensures { result ≡ part source.now span }
{
    match source.region(span) {
        Some(region) => region,
        None => empty_region(),
    }
}

// Converts an edit.
fn edit_value(alloc: Global, source: &PositionIndex<'_>, edit: &Edit) -> Result<Value, AllocError>
    ensures { IfOk result (λ value. view value ≡ edit_value source.now edit.now) }
{
    let range = range_value(alloc, part(source, *edit.span()))?;
    let it = with_value(alloc, Map::new(alloc), "range", range)?;
    object_with_text(alloc, it, "newText", edit.text())
}

/// Converts edits to a list.
pub(crate) fn edits_value(
    alloc: Global,
    source: &PositionIndex<'_>,
    edits: &[Edit],
) -> Result<Value, AllocError>
    ensures { IfOk result (λ value. view value ≡ edits_value source.now edits.now) }
{
    let mut values = Vec::with_capacity(alloc, edits.len())?;
    for edit in edits {
        let value = edit_value(alloc, source, edit)?;
        push(&mut values, value)?;
    }
    Ok(list_value(values))
}

/// Converts a fix of the document with this URI.
pub(crate) fn fix_value(
    alloc: Global,
    uri: &str,
    source: &PositionIndex<'_>,
    fix: &Fix,
) -> Result<Value, AllocError>
    ensures { IfOk result (λ value. view value ≡ fix_value uri.now source.now fix.now) }
{
    let edits = edits_value(alloc, source, fix.edits())?;
    let it = with_value(alloc, Map::new(alloc), "edits", edits)?;
    let it = with_text(alloc, it, "title", fix.message())?;
    let it = with_text(alloc, it, "applicability", fix.applicability().name())?;
    object_with_text(alloc, it, "uri", uri)
}
