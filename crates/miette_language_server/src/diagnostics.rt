//! Findings of `lint` in a document, as diagnostics of the Language Server Protocol.

ghost use Rattle.std.specs.Prelude.{◌≡◌, [], IfOk, codes, map, unwrap_or};
ghost use Rattle.serde_json.specs.Data.{member, string};
ghost use Rattle.serde_json.specs.View.{members_view, view};
ghost use Rattle.miette_lint.specs.rules.FindingWithFixes.{coded_findings};
ghost use Rattle.miette_lint.specs.views.Found.{coded_of};
ghost use Rattle.miette_language_server.specs.rules.Diagnostics.{diagnostic_value, diagnostics, diagnostics_of};
ghost use Rattle.miette_language_server.specs.rules.Diagnostics.{fixable_value, fixes_value, utf16_positions};
ghost use Rattle.miette_language_server.specs.rules.Diagnostics.{plain_value};
ghost use Rattle.miette_language_server.specs.rules.Diagnostics.{publish_params};
ghost use Rattle.miette_language_server.specs.rules.Diagnostics.{told};
ghost use Rattle.miette_language_server.specs.rules.Values.{fix_value};

use crate::documents::Document;
use crate::objects::{object_with, with_text, with_value};
use crate::values::{fix_value, part, range_value};
use miette_fixes::fix::Fix;
use miette_lint::coded::{CodedFinding, coded_findings};
use miette_positions::index::PositionIndex;
use miette_positions::position::PositionEncoding;
use miette_protocol::protocol::LabeledSpan;
use serde_json::{Map, Value, push};
use std::alloc::{AllocError, Global};

/// Creates an index of a text's positions, in UTF-16 code units.
pub(crate) fn utf16_positions(alloc: Global, text: &[u8]) -> Result<PositionIndex<'_>, AllocError>
    ensures { IfOk result (λ it. it ≡ utf16_positions text.now) }
{
    PositionIndex::new(alloc, text, PositionEncoding::Utf16)
}

// Converts fixes.
fn fix_values(
    alloc: Global,
    uri: &str,
    source: &PositionIndex<'_>,
    fixes: &[Fix],
) -> Result<Vec<Value>, AllocError>
    ensures { IfOk result (λ list. map view list.items ≡ map (fix_value uri.now source.now) fixes.now) }
{
    let mut values = Vec::with_capacity(alloc, fixes.len())?;
    for fix in fixes {
        let value = fix_value(alloc, uri, source, fix)?;
        push(&mut values, value)?;
    }
    Ok(values)
}

// The proposed fixes of a finding.
fn fixes_value(
    alloc: Global,
    uri: &str,
    source: &PositionIndex<'_>,
    fixes: &[Fix],
) -> Result<Value, AllocError>
    ensures { IfOk result (λ value. view value ≡ fixes_value uri.now source.now fixes.now) }
{
    let values = fix_values(alloc, uri, source, fixes)?;
    object_with(alloc, Map::new(alloc), "fixes", Value::Array(values))
}

// The message of a finding.
fn message(label: &LabeledSpan) -> &str
    ensures { result.now ≡ unwrap_or label.now.text [] }
{
    match label.label() {
        Some(text) => text,
        None => "",
    }
}

// The members that all diagnostics have.
fn told(
    alloc: Global,
    source: &PositionIndex<'_>,
    found: &CodedFinding,
) -> Result<Map<String, Value>, AllocError>
    ensures { IfOk result (λ it. members_view it.entries
        ≡ member (codes "code") (string (coded_of found.now).code) (told source.now (coded_of found.now))) }
{
    let range = range_value(alloc, part(source, *found.label.inner()))?;
    let it = with_value(alloc, Map::new(alloc), "range", range)?;
    let it = with_value(alloc, it, "severity", Value::from(2u8))?;
    let it = with_text(alloc, it, "code", found.code)?;
    let it = with_text(alloc, it, "source", "lint")?;
    with_text(alloc, it, "message", message(&found.label))
}

// A diagnostic without fixes.
fn plain_value(
    alloc: Global,
    source: &PositionIndex<'_>,
    found: &CodedFinding,
) -> Result<Value, AllocError>
    ensures { IfOk result (λ value. view value ≡ plain_value source.now (coded_of found.now)) }
{
    let it = told(alloc, source, found)?;
    Ok(Value::Object(it))
}

// A diagnostic with fixes.
fn fixable_value(
    alloc: Global,
    uri: &str,
    source: &PositionIndex<'_>,
    found: &CodedFinding,
) -> Result<Value, AllocError>
    ensures { IfOk result (λ value. view value ≡ fixable_value uri.now source.now (coded_of found.now)) }
{
    let fixes = fixes_value(alloc, uri, source, found.fixes.as_slice())?;
    let it = told(alloc, source, found)?;
    object_with(alloc, it, "data", fixes)
}

/// Returns the diagnostic of a finding in the document with this URI.
pub(crate) fn diagnostic_value(
    alloc: Global,
    uri: &str,
    source: &PositionIndex<'_>,
    found: &CodedFinding,
) -> Result<Value, AllocError>
    ensures { IfOk result (λ value. view value ≡ diagnostic_value uri.now source.now (coded_of found.now)) }
{
    if found.fixes.is_empty() {
        plain_value(alloc, source, found)
    } else {
        fixable_value(alloc, uri, source, found)
    }
}

// Returns the diagnostics of these findings.
fn diagnostic_values(
    alloc: Global,
    uri: &str,
    source: &PositionIndex<'_>,
    found: &[CodedFinding],
) -> Result<Vec<Value>, AllocError>
    ensures { IfOk result (λ list. map view list.items
        ≡ map (λ it. diagnostic_value uri.now source.now (coded_of it)) found.now) }
{
    let mut values = Vec::with_capacity(alloc, found.len())?;
    for it in found {
        let value = diagnostic_value(alloc, uri, source, it)?;
        push(&mut values, value)?;
    }
    Ok(values)
}

// Returns all diagnostics of an indexed text.
fn placed_diagnostics(
    alloc: Global,
    width: usize,
    uri: &str,
    source: &PositionIndex<'_>,
) -> Result<Vec<Value>, AllocError>
    ensures { IfOk result (λ list. map view list.items
        ≡ map (diagnostic_value uri.now source.now) (coded_findings source.now.source width)) }
{
    let found = coded_findings(alloc, source.source(), width)?;
    diagnostic_values(alloc, uri, source, found.as_slice())
}

// Returns all diagnostics of a text.
fn diagnostics(
    alloc: Global,
    width: usize,
    uri: &str,
    text: &[u8],
) -> Result<Vec<Value>, AllocError>
    ensures { IfOk result (λ list. map view list.items ≡ diagnostics width uri.now text.now) }
{
    let source = utf16_positions(alloc, text)?;
    placed_diagnostics(alloc, width, uri, &source)
}

/// Returns the parameters of `textDocument/publishDiagnostics`: the diagnostics of a document, and its version.
pub(crate) fn publish_params(
    alloc: Global,
    uri: &str,
    version: Option<i64>,
    list: Vec<Value>,
) -> Result<Value, AllocError>
    ensures { IfOk result (λ value. view value ≡ publish_params uri.now version (map view list.items)) }
{
    let it = with_value(alloc, Map::new(alloc), "diagnostics", Value::Array(list))?;
    let it = with_text(alloc, it, "uri", uri)?;
    match version {
        Some(version) => object_with(alloc, it, "version", Value::from(version)),
        None => Ok(Value::Object(it)),
    }
}

/// Returns these parameters for an open document.
pub(crate) fn diagnostics_of(
    alloc: Global,
    width: usize,
    document: &Document,
) -> Result<Value, AllocError>
    ensures { IfOk result (λ value. view value ≡ diagnostics_of width document.now) }
{
    let list = diagnostics(alloc, width, document.uri(), document.text())?;
    publish_params(alloc, document.uri(), document.version(), list)
}
