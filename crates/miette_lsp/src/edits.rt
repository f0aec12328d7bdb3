//! Applicable fixes as text edits of the Language Server Protocol.

ghost use Rattle.std.specs.Prelude.{◌≡◌, IfOk, OnOk, map, string_bytes};
ghost use Rattle.std.specs.Str.{bytes_eq};
ghost use Rattle.indexmap.specs.IndexSet.{insert_all};
ghost use Rattle.miette_json.specs.rules.Json.{json_text};
ghost use Rattle.miette_json.specs.rules.Writing.{with_value};
ghost use Rattle.miette_lsp.specs.rules.Diagnostics.{lsp_fix_value, lsp_fix_values, text_edit};
ghost use Rattle.miette_sarif.specs.rules.Objects.{array_of};
ghost use Rattle.miette_sarif.specs.views.Artifacts.{artifacts_view};
ghost use Rattle.miette_sarif.specs.views.Findings.{applicable_fix_of, replacement_value_of, texts_of};

use crate::places::push_stretch_range;
use indexmap::IndexSet;
use miette_json::writer::JsonWriter;
use miette_sarif::artifacts::Artifacts;
use miette_sarif::finding::{Proposal, Replacement};
use miette_sarif::texts::{insert_text, push_texts};
use std::alloc::{AllocError, Global};

// `{"range": {..},"newText": "1"}`
fn push_edit(json: &mut JsonWriter, item: &Replacement) -> Result<(), AllocError>
    ensures { OnOk result (json.new ≡ with_value (text_edit (replacement_value_of item.now)) json.old) }
{
    json.begin_object()?;
    json.key("range")?;
    push_stretch_range(json, &item.deleted)?;
    json.string_member("newText", item.text.as_str())?;
    json.end_object()
}

/// Writes the list of replacements as `TextEdit`s of the protocol: each has a `range` and a `newText`.
///
/// # Errors
/// `AllocError` if allocation fails.
pub fn push_edits(json: &mut JsonWriter, list: &[Replacement]) -> Result<(), AllocError>
    ensures { OnOk result (json.new
        ≡ with_value (array_of (map text_edit (map replacement_value_of list.now))) json.old) }
{
    json.begin_list()?;
    for item in list {
        push_edit(json, item)?;
    }
    json.end_list()
}

// `{"title": "a number","applicability": "maybe-incorrect","uri": "a.rs","edits": [..]}`
fn push_fix(
    json: &mut JsonWriter,
    artifacts: &Artifacts,
    fix: &Proposal<'_>,
) -> Result<(), AllocError>
    ensures { OnOk result (json.new
        ≡ with_value (lsp_fix_value (artifacts_view artifacts.now).untitled (applicable_fix_of fix.now)) json.old) }
{
    let uri = artifacts.uri(json.allocator(), fix.source)?;
    json.begin_object()?;
    json.string_member("title", fix.message)?;
    json.string_member("applicability", fix.applicability.name())?;
    json.string_member("uri", uri.as_str())?;
    json.key("edits")?;
    push_edits(json, &fix.replacements)?;
    json.end_object()
}

// Returns a fix as JSON text.
fn fix_text(alloc: Global, artifacts: &Artifacts, fix: &Proposal<'_>) -> Result<String, AllocError>
    ensures { IfOk result (λ text. string_bytes text
        ≡ json_text (lsp_fix_value (artifacts_view artifacts.now).untitled (applicable_fix_of fix.now))) }
{
    let mut json = JsonWriter::new(alloc);
    push_fix(&mut json, artifacts, fix)?;
    Ok(json.into_text())
}

// Adds the texts of fixes. Duplicates are skipped.
fn insert_fixes(
    texts: &mut IndexSet<String>,
    alloc: Global,
    artifacts: &Artifacts,
    fixes: &[Proposal<'_>],
) -> Result<(), AllocError>
    ensures { OnOk result (texts_of texts.new.keys ≡ insert_all bytes_eq (texts_of texts.old.keys)
        (map json_text (map (lsp_fix_value (artifacts_view artifacts.now).untitled)
        (map applicable_fix_of fixes.now)))) }
{
    for fix in fixes {
        let text = fix_text(alloc, artifacts, fix)?;
        insert_text(texts, text)?;
    }
    Ok(())
}

/// Writes the list of fixes without duplicates.
pub(crate) fn push_fixes(
    json: &mut JsonWriter,
    artifacts: &Artifacts,
    fixes: &[Proposal<'_>],
) -> Result<(), AllocError>
    ensures { OnOk result (json.new ≡ with_value
        (array_of (lsp_fix_values (artifacts_view artifacts.now).untitled (map applicable_fix_of fixes.now))) json.old) }
{
    let alloc = json.allocator();
    let mut texts = IndexSet::new(alloc);
    insert_fixes(&mut texts, alloc, artifacts, fixes)?;
    push_texts(json, texts.as_slice())
}
