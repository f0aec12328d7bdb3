//! Diagnostics grouped by source.

ghost use Rattle.std.specs.Prelude.{◌≡◌, ◌++◌, ◌∷◌, [], ◌<◌, IfOk, OnOk, get_or, if◌then◌else◌, length, map, set};
ghost use Rattle.std.specs.Prelude.{List, not, slice_get, Some, string_bytes, true, ℕ};
ghost use Rattle.std.specs.List.{list_any};
ghost use Rattle.std.specs.Option.{option_map};
ghost use Rattle.std.specs.Str.{bytes_eq};
ghost use Rattle.indexmap.specs.IndexSet.{insert_key};
ghost use Rattle.miette_json.specs.rules.Writing.{empty_prefix, with_value};
ghost use Rattle.miette_lsp.specs.rules.Diagnostics.{diagnostic};
ghost use Rattle.miette_lsp.specs.rules.Documents.{all_diagnostics, documents, documents_in, mark_source};
ghost use Rattle.miette_lsp.specs.rules.Documents.{place_source};
ghost use Rattle.miette_lsp.specs.steps.Putting.{AreLists, AreSomeLists, IsAt, with_document, with_documents};
ghost use Rattle.miette_lsp.specs.views.DocumentLists.{document_lists_of};
ghost use Rattle.miette_sarif.specs.rules.Findings.{Finding as Findings};
ghost use Rattle.miette_sarif.specs.rules.Objects.{array_of};
ghost use Rattle.miette_sarif.specs.views.Artifacts.{artifacts_view};
ghost use Rattle.miette_sarif.specs.views.Findings.{finding_of, sarif_findings_of, mark_of, source_name_of, place_of};
ghost use Rattle.miette_sarif.specs.views.Findings.{texts_of};

use crate::diagnostic::push_diagnostic;
use indexmap::IndexSet;
use miette_json::writer::JsonWriter;
use miette_sarif::artifacts::{Artifacts, artifacts_in};
use miette_sarif::finding::{Finding, PhysicalLocation, SarifLocation, SourceId};
use std::alloc::{AllocError, Global};

// The URIs of sources with findings, and the diagnostics of each, which are written as list items.
#[derive(Drop)]
struct DocumentLists {
    uris: IndexSet<String>,
    lists: Vec<JsonWriter>,
}

// The source of a location, if there is one.
fn place_source<'a>(place: &Option<PhysicalLocation<'a>>) -> Option<SourceId<'a>>
    ensures { option_map source_name_of result ≡ place_source (option_map place_of place.now) }
{
    match place {
        Some(place) => Some(place.source),
        None => None,
    }
}

// The source of a primary location, if it has one.
fn mark_source<'a>(mark: &Option<SarifLocation<'a>>) -> Option<SourceId<'a>>
    ensures { option_map source_name_of result ≡ mark_source (option_map mark_of mark.now) }
{
    match mark {
        Some(mark) => place_source(&mark.place),
        None => None,
    }
}

// Returns the index of a URI and whether it is new. A new URI is appended.
fn place_of_uri(uris: &mut IndexSet<String>, uri: String) -> Result<(usize, bool), AllocError>
    ensures new { IfOk result (λ at. at.1 ≡ not (list_any (bytes_eq (string_bytes uri)) (texts_of uris.old.keys))) }
    ensures uris { OnOk result (texts_of uris.new.keys
        ≡ insert_key bytes_eq (texts_of uris.old.keys) (string_bytes uri)) }
    ensures inside { IfOk result (λ at. at.0 < length (texts_of uris.new.keys)) }
    ensures there { IfOk result (λ at. (found : List ℕ) × (slice_get (texts_of uris.new.keys) at.0 ≡ Some found)
        × (bytes_eq (string_bytes uri) found ≡ true)) }
{
    let at = uris.insert_full(uri)?;
    Ok(at)
}

// Appends an empty list for a new URI.
fn begin_list(lists: &mut Vec<JsonWriter>, alloc: Global, is_new: bool) -> Result<(), AllocError>
    ensures { OnOk result (lists.new.items
        ≡ (if is_new then lists.old.items ++ empty_prefix ∷ [] else lists.old.items)) }
{
    if is_new {
        lists.push(JsonWriter::new(alloc))?;
    }
    Ok(())
}

// Writes a diagnostic to the list at an index.
fn push_to(
    lists: &mut Vec<JsonWriter>,
    at: usize,
    tool: &str,
    artifacts: &Artifacts,
    finding: &Finding<'_>,
) -> Result<(), AllocError>
    requires { at < length lists.old.items }
    ensures { OnOk result (lists.new.items ≡ set lists.old.items at (with_value
        (diagnostic tool.now (artifacts_view artifacts.now).untitled (finding_of finding.now))
        (get_or lists.old.items at empty_prefix))) }
{
    push_diagnostic(&mut lists[at], tool, artifacts, finding)
}

impl DocumentLists {
    // Creates an empty map.
    fn new(alloc: Global) -> Self
        ensures { document_lists_of result ≡ record { uris = []; lists = [] } }
    {
        DocumentLists {
            uris: IndexSet::new(alloc),
            lists: Vec::new(alloc),
        }
    }

    // Returns the index of the list of a URI. A new URI gets an empty list.
    fn list_at(&mut self, alloc: Global, uri: String) -> Result<usize, AllocError>
        requires { length (document_lists_of self.old).lists ≡ length (document_lists_of self.old).uris }
        ensures { IfOk result (λ at. IsAt (string_bytes uri) at (document_lists_of self.old)
            (document_lists_of self.new)) }
    {
        let (at, is_new) = place_of_uri(&mut self.uris, uri)?;
        begin_list(&mut self.lists, alloc, is_new)?;
        Ok(at)
    }

    // Writes the diagnostic of a finding to the list of its source, if it has one.
    fn put_finding(
        &mut self,
        alloc: Global,
        tool: &str,
        artifacts: &Artifacts,
        finding: &Finding<'_>,
    ) -> Result<(), AllocError>
        requires { AreSomeLists tool.now (artifacts_view artifacts.now).untitled (document_lists_of self.old) }
        ensures { OnOk result ((fs : List Findings) → AreLists tool.now (artifacts_view artifacts.now).untitled fs
            (document_lists_of self.old) → AreLists tool.now (artifacts_view artifacts.now).untitled
            (fs ++ finding_of finding.now ∷ []) (document_lists_of self.new)) }
    {
        match mark_source(&finding.primary) {
            Some(source) => {
                let uri = artifacts.uri(alloc, source)?;
                let at = self.list_at(alloc, uri)?;
                push_to(&mut self.lists, at, tool, artifacts, finding)
            }
            None => Ok(()),
        }
    }
}

// Groups the diagnostics of findings by source.
fn lists_by_uri(
    alloc: Global,
    tool: &str,
    artifacts: &Artifacts,
    findings: &[Finding<'_>],
) -> Result<DocumentLists, AllocError>
    ensures { IfOk result (λ it. AreLists tool.now (artifacts_view artifacts.now).untitled
        (sarif_findings_of findings.now)
        (document_lists_of it)) }
{
    let mut grouped = DocumentLists::new(alloc);
    for finding in findings {
        grouped.put_finding(alloc, tool, artifacts, finding)?;
    }
    Ok(grouped)
}

// `{"uri": "a.rs","diagnostics": [..]}`
fn push_document(
    json: &mut JsonWriter,
    uri: &str,
    diagnostics: &JsonWriter,
) -> Result<(), AllocError>
    ensures { OnOk result (json.new ≡ with_document uri.now diagnostics.now json.old) }
{
    json.begin_object()?;
    json.string_member("uri", uri)?;
    json.key("diagnostics")?;
    json.begin_list()?;
    json.items(diagnostics)?;
    json.end_list()?;
    json.end_object()
}

// Writes a document for each URI with its list.
fn push_each(json: &mut JsonWriter, uris: &[String], lists: &[JsonWriter]) -> Result<(), AllocError>
    ensures { OnOk result (json.new ≡ with_documents (texts_of uris.now) lists.now json.old) }
{
    let mut left = uris;
    for list in lists {
        let [uri, rest @ ..] = left else {
            return Ok(());
        };
        push_document(json, uri.as_str(), list)?;
        left = rest;
    }
    Ok(())
}

// Writes the list of the documents of findings. The artifacts give sources without a name their numbers.
fn push_documents_in(
    json: &mut JsonWriter,
    tool: &str,
    artifacts: &Artifacts,
    findings: &[Finding<'_>],
) -> Result<(), AllocError>
    ensures { OnOk result (json.new ≡ with_value (array_of
        (documents_in tool.now (artifacts_view artifacts.now).untitled (sarif_findings_of findings.now))) json.old) }
{
    let grouped = lists_by_uri(json.allocator(), tool, artifacts, findings)?;
    json.begin_list()?;
    push_each(json, grouped.uris.as_slice(), &grouped.lists)?;
    json.end_list()
}

/// Writes the list of the documents of findings by a tool with this name. Each source with a finding has a document with
/// its `uri` and its `diagnostics`, in the order of the first finding.
///
/// # Errors
/// `AllocError` if allocation fails.
pub fn push_documents(
    json: &mut JsonWriter,
    tool: &str,
    findings: &[Finding<'_>],
) -> Result<(), AllocError>
    ensures { OnOk result (json.new
        ≡ with_value (documents tool.now (sarif_findings_of findings.now)) json.old) }
{
    let artifacts = artifacts_in(json.allocator(), findings)?;
    push_documents_in(json, tool, &artifacts, findings)
}

// Writes the list of the diagnostics of findings. The artifacts give sources without a name their numbers.
fn push_diagnostics_in(
    json: &mut JsonWriter,
    tool: &str,
    artifacts: &Artifacts,
    findings: &[Finding<'_>],
) -> Result<(), AllocError>
    ensures { OnOk result (json.new ≡ with_value (array_of
        (map (diagnostic tool.now (artifacts_view artifacts.now).untitled) (sarif_findings_of findings.now))) json.old) }
{
    json.begin_list()?;
    for finding in findings {
        push_diagnostic(json, tool, artifacts, finding)?;
    }
    json.end_list()
}

/// Writes the list of the diagnostics of all findings in order, whichever source they are in.
///
/// # Errors
/// `AllocError` if allocation fails.
pub fn push_diagnostics(
    json: &mut JsonWriter,
    tool: &str,
    findings: &[Finding<'_>],
) -> Result<(), AllocError>
    ensures { OnOk result (json.new
        ≡ with_value (array_of (all_diagnostics tool.now (sarif_findings_of findings.now))) json.old) }
{
    let artifacts = artifacts_in(json.allocator(), findings)?;
    push_diagnostics_in(json, tool, &artifacts, findings)
}
