//! What a client may do at a place of a document: quick fixes.

ghost use Rattle.std.specs.Prelude.{◌≡◌, ◌++◌, ◌∷◌, [], IfOk, OnOk, codes, flat_map, map, string_bytes};
ghost use Rattle.std.specs.Option.{option_copied};
ghost use Rattle.serde_json.specs.View.{view};
ghost use Rattle.miette_lint.specs.views.Found.{coded_of};
ghost use Rattle.miette_positions.specs.rules.Stops.{is_until};
ghost use Rattle.miette_language_server.specs.rules.Actions.{action_value, actions, actions_at, actions_in};
ghost use Rattle.miette_language_server.specs.rules.Actions.{changes_value, joint_of, joint_value, touches};
ghost use Rattle.miette_language_server.specs.rules.Values.{list_value};

use crate::diagnostics::{diagnostic_value, utf16_positions};
use crate::documents::Document;
use crate::objects::{object_with, object_with_text, with_text, with_value};
use crate::values::{edits_value, part};
use miette_fixes::fix::Fix;
use miette_lint::coded::{CodedFinding, coded_findings};
use miette_lint::combined::combined_proposal;
use miette_positions::index::PositionIndex;
use miette_positions::position::{Position, Region};
use serde_json::{Map, Value, json, push};
use std::alloc::{AllocError, Global};

// Returns whether a position is at or before another one.
fn is_until(position: Position, other: Position) -> bool
    ensures { result ≡ is_until position other }
{
    position.line < other.line || position.line == other.line && position.column <= other.column
}

// Whether two parts of a document share a position.
fn touches(part: Region, other: Region) -> bool
    ensures { result ≡ touches part other }
{
    is_until(part.start, other.end) && is_until(other.start, part.end)
}

// The edits of one document.
fn changes_value(alloc: Global, uri: &str, edits: Value) -> Result<Value, AllocError>
    ensures { IfOk result (λ value. view value ≡ changes_value uri.now (view edits)) }
{
    let changes = object_with(alloc, Map::new(alloc), uri, edits)?;
    object_with(alloc, Map::new(alloc), "changes", changes)
}

// A list of one value.
fn list_of_one(alloc: Global, value: &Value) -> Result<Value, AllocError>
    ensures { IfOk result (λ list. view list ≡ list_value (view value.now ∷ [])) }
{
    json!(in alloc; [value])
}

// A fix of a diagnostic.
fn action_value(
    alloc: Global,
    uri: &str,
    source: &PositionIndex<'_>,
    diagnostic: &Value,
    fix: &Fix,
) -> Result<Value, AllocError>
    ensures { IfOk result (λ value. view value ≡ action_value uri.now source.now (view diagnostic.now) fix.now) }
{
    let edits = edits_value(alloc, source, fix.edits())?;
    let edit = changes_value(alloc, uri, edits)?;
    let it = with_value(alloc, Map::new(alloc), "edit", edit)?;
    let it = with_text(alloc, it, "title", fix.message())?;
    let it = with_text(alloc, it, "kind", "quickfix")?;
    let it = with_value(
        alloc,
        it,
        "isPreferred",
        Value::Bool(fix.applicability().is_machine_applicable()),
    )?;
    let diagnostics = list_of_one(alloc, diagnostic)?;
    object_with(alloc, it, "diagnostics", diagnostics)
}

// What all fixes of a document are called.
fn joint_title(alloc: Global, fix: &Fix) -> Result<String, AllocError>
    ensures { IfOk result (λ text. string_bytes text ≡ codes "fix " ++ fix.now.message) }
{
    let mut text = String::from_str(alloc, "fix ")?;
    text.push_str(fix.message())?;
    Ok(text)
}

// All fixes of a document.
fn joint_value(
    alloc: Global,
    uri: &str,
    source: &PositionIndex<'_>,
    fix: &Fix,
) -> Result<Value, AllocError>
    ensures { IfOk result (λ value. view value ≡ joint_value uri.now source.now fix.now) }
{
    let title = joint_title(alloc, fix)?;
    let it = with_value(alloc, Map::new(alloc), "title", Value::String(title))?;
    let edits = edits_value(alloc, source, fix.edits())?;
    let edit = changes_value(alloc, uri, edits)?;
    let it = with_value(alloc, it, "edit", edit)?;
    object_with_text(alloc, it, "kind", "quickfix")
}

// These fixes of a diagnostic.
fn fix_actions(
    alloc: Global,
    uri: &str,
    source: &PositionIndex<'_>,
    diagnostic: &Value,
    fixes: &[Fix],
) -> Result<Vec<Value>, AllocError>
    ensures { IfOk result (λ list. map view list.items
        ≡ map (action_value uri.now source.now (view diagnostic.now)) fixes.now) }
{
    let mut list = Vec::with_capacity(alloc, fixes.len())?;
    for fix in fixes {
        let action = action_value(alloc, uri, source, diagnostic, fix)?;
        push(&mut list, action)?;
    }
    Ok(list)
}

// Values after those of a list.
fn append(list: &mut Vec<Value>, more: Vec<Value>) -> Result<(), AllocError>
    ensures { OnOk result (map view list.new.items ≡ map view list.old.items ++ map view more.items) }
{
    let mut more = more;
    list.append(&mut more)
}

// The fixes of a finding, where a part touches it.
fn actions_at(
    alloc: Global,
    uri: &str,
    source: &PositionIndex<'_>,
    region: Region,
    found: &CodedFinding,
) -> Result<Vec<Value>, AllocError>
    ensures { IfOk result (λ list. map view list.items
        ≡ actions_at uri.now source.now region (coded_of found.now)) }
{
    if !touches(part(source, *found.label.inner()), region) {
        return Ok(Vec::new(alloc));
    }
    let diagnostic = diagnostic_value(alloc, uri, source, found)?;
    fix_actions(alloc, uri, source, &diagnostic, found.fixes.as_slice())
}

// The fixes of all findings that a part touches.
fn own_actions(
    alloc: Global,
    uri: &str,
    source: &PositionIndex<'_>,
    region: Region,
    found: &[CodedFinding],
) -> Result<Vec<Value>, AllocError>
    ensures { IfOk result (λ list. map view list.items
        ≡ flat_map (actions_at uri.now source.now region) (map coded_of found.now)) }
{
    let mut list = Vec::new(alloc);
    for it in found {
        let more = actions_at(alloc, uri, source, region, it)?;
        append(&mut list, more)?;
    }
    Ok(list)
}

// All fixes of a document whose lines may have this many columns.
fn joint_of(
    alloc: Global,
    uri: &str,
    source: &PositionIndex<'_>,
    width: usize,
) -> Result<Value, AllocError>
    ensures { IfOk result (λ value. view value ≡ joint_of uri.now source.now width) }
{
    let joint = combined_proposal(alloc, source.source(), width)?;
    joint_value(alloc, uri, source, &joint)
}

// Values, and one more after them.
fn with_last(list: Vec<Value>, last: Value) -> Result<Vec<Value>, AllocError>
    ensures { IfOk result (λ made. map view made.items ≡ map view list.items ++ view last ∷ []) }
{
    let mut made = list;
    push(&mut made, last)?;
    Ok(made)
}

// The fixes at a part of a document, and after them, if there are any, one for all findings.
fn actions(
    alloc: Global,
    width: usize,
    document: &Document,
    region: Region,
) -> Result<Vec<Value>, AllocError>
    ensures { IfOk result (λ list. map view list.items
        ≡ actions width document.now.uri document.now.text region) }
{
    let source = utf16_positions(alloc, document.text())?;
    let found = coded_findings(alloc, document.text(), width)?;
    let own = own_actions(alloc, document.uri(), &source, region, found.as_slice())?;
    if own.is_empty() {
        return Ok(own);
    }
    let joint = joint_of(alloc, document.uri(), &source, width)?;
    with_last(own, joint)
}

/// Returns the quick fixes in a range of an open document.
///
/// # Errors
/// `AllocError` if allocation fails.
pub(crate) fn actions_in(
    alloc: Global,
    width: usize,
    document: Option<&Document>,
    region: Option<Region>,
) -> Result<Vec<Value>, AllocError>
    ensures { IfOk result (λ list. map view list.items
        ≡ actions_in width (option_copied document.entry) region) }
{
    match (document, region) {
        (Some(document), Some(region)) => actions(alloc, width, document, region),
        _ => Ok(Vec::new(alloc)),
    }
}
