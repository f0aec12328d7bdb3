//! The artifacts of a log: the sources that results name, as URIs. Each is listed once, in the order of its first use.

ghost use Rattle.std.specs.Prelude.{◌≡◌, ◌++◌, ◌∷◌, [], ◌+◌, IfOk, OnOk, codes, decimal, map, string_bytes};
ghost use Rattle.std.specs.Option.{option_map};
ghost use Rattle.std.specs.Str.{bytes_eq};
ghost use Rattle.indexmap.specs.IndexSet.{insert_all};
ghost use Rattle.miette_sarif.specs.rules.Artifacts.{all_named, artifact, artifact_values, artifacts_in};
ghost use Rattle.miette_sarif.specs.rules.Artifacts.{artifact_location};
ghost use Rattle.miette_sarif.specs.rules.Artifacts.{named_in, named_in_fixes, named_in_marks};
ghost use Rattle.miette_sarif.specs.rules.Artifacts.{named_in_place, named_in_primary, untitled_after, uri_of};
ghost use Rattle.miette_json.specs.rules.Json.{number, string};
ghost use Rattle.miette_json.specs.rules.Writing.{with_value};
ghost use Rattle.miette_sarif.specs.rules.Objects.{array_of, listed, object_of, pair};
ghost use Rattle.miette_sarif.specs.steps.Members.{with_pairs};
ghost use Rattle.miette_sarif.specs.views.Findings.{finding_of, sarif_findings_of, mark_of, source_name_of};
ghost use Rattle.miette_sarif.specs.views.Findings.{source_names_of, place_of};
ghost use Rattle.miette_sarif.specs.views.Findings.{applicable_fix_of, texts_of};
ghost use Rattle.miette_sarif.specs.views.Artifacts.{artifacts_view};

use crate::finding::{Finding, PhysicalLocation, Proposal, SarifLocation, SourceId};
use crate::texts::insert_text;
use crate::uri::name_uri;
use indexmap::IndexSet;
use miette_json::writer::JsonWriter;
use miette_lines::numbers::push_number;
use miette_lines::sums::sum;
use std::alloc::{AllocError, Global};

/// The numbers of the sources without a name, and the URIs of all sources.
#[derive(Drop)]
pub struct Artifacts {
    untitled: IndexSet<usize>,
    uris: IndexSet<String>,
}

// Adds a source.
fn push_source<'a>(names: &mut Vec<SourceId<'a>>, source: SourceId<'a>) -> Result<(), AllocError>
    ensures { OnOk result (source_names_of names.new.items ≡ source_names_of names.old.items
        ++ source_name_of source.entry ∷ []) }
{
    names.push(source)?;
    Ok(())
}

// Adds the source of a location.
fn push_place<'a>(
    names: &mut Vec<SourceId<'a>>,
    place: &Option<PhysicalLocation<'a>>,
) -> Result<(), AllocError>
    ensures { OnOk result (source_names_of names.new.items
        ≡ source_names_of names.old.items ++ named_in_place (option_map place_of place.now)) }
{
    match place {
        Some(place) => push_source(names, place.source),
        None => Ok(()),
    }
}

// Adds the source of the primary label.
fn push_primary<'a>(
    names: &mut Vec<SourceId<'a>>,
    primary: &Option<SarifLocation<'a>>,
) -> Result<(), AllocError>
    ensures { OnOk result (source_names_of names.new.items
        ≡ source_names_of names.old.items ++ named_in_primary (option_map mark_of primary.now)) }
{
    match primary {
        Some(mark) => push_place(names, &mark.place),
        None => Ok(()),
    }
}

// Adds the sources of labels.
fn push_marks<'a>(
    names: &mut Vec<SourceId<'a>>,
    locations: &[SarifLocation<'a>],
) -> Result<(), AllocError>
    ensures { OnOk result (source_names_of names.new.items
        ≡ source_names_of names.old.items ++ named_in_marks (map mark_of locations.now)) }
{
    for mark in locations {
        push_place(names, &mark.place)?;
    }
    Ok(())
}

// Adds the sources of fixes.
fn push_fixes<'a>(names: &mut Vec<SourceId<'a>>, fixes: &[Proposal<'a>]) -> Result<(), AllocError>
    ensures { OnOk result (source_names_of names.new.items
        ≡ source_names_of names.old.items ++ named_in_fixes (map applicable_fix_of fixes.now)) }
{
    for fix in fixes {
        push_source(names, fix.source)?;
    }
    Ok(())
}

// Adds the sources that a result names, by its locations and fixes.
fn push_named<'a>(names: &mut Vec<SourceId<'a>>, finding: &Finding<'a>) -> Result<(), AllocError>
    ensures { OnOk result (source_names_of names.new.items
        ≡ source_names_of names.old.items ++ named_in (finding_of finding.now)) }
{
    push_primary(names, &finding.primary)?;
    push_marks(names, &finding.locations)?;
    push_fixes(names, &finding.fixes)
}

// Adds the sources that results name.
fn push_all_named<'a>(
    names: &mut Vec<SourceId<'a>>,
    findings: &[Finding<'a>],
) -> Result<(), AllocError>
    ensures { OnOk result (source_names_of names.new.items
        ≡ source_names_of names.old.items ++ all_named (sarif_findings_of findings.now)) }
{
    for finding in findings {
        push_named(names, finding)?;
    }
    Ok(())
}

// Adds the numbers of sources without a name.
fn insert_untitled(untitled: &mut IndexSet<usize>, names: &[SourceId<'_>]) -> Result<(), AllocError>
    ensures { OnOk result (untitled.new.keys ≡ untitled_after untitled.old.keys (source_names_of names.now)) }
{
    for source in names {
        if source.name.is_empty() {
            untitled.insert(source.number)?;
        }
    }
    Ok(())
}

// `untitled:1`
fn untitled_uri(alloc: Global, number: usize) -> Result<String, AllocError>
    ensures { IfOk result (λ uri. string_bytes uri ≡ codes "untitled:" ++ decimal number) }
{
    let mut uri = String::from_str(alloc, "untitled:")?;
    push_number(&mut uri, number)?;
    Ok(uri)
}

// Returns the URI of a source.
fn uri_of(
    alloc: Global,
    untitled: &IndexSet<usize>,
    source: &SourceId<'_>,
) -> Result<String, AllocError>
    ensures { IfOk result (λ uri. string_bytes uri ≡ uri_of untitled.now.keys (source_name_of source.now)) }
{
    if !source.name.is_empty() {
        return name_uri(alloc, source.name);
    }
    let before = untitled.get_index_of(&source.number).unwrap_or(0);
    untitled_uri(alloc, sum(before, 1)?)
}

// Adds the URIs of sources.
fn insert_uris(
    uris: &mut IndexSet<String>,
    alloc: Global,
    untitled: &IndexSet<usize>,
    names: &[SourceId<'_>],
) -> Result<(), AllocError>
    ensures { OnOk result (texts_of uris.new.keys
        ≡ insert_all bytes_eq (texts_of uris.old.keys) (map (uri_of untitled.now.keys) (source_names_of names.now))) }
{
    for source in names {
        let uri = uri_of(alloc, untitled, source)?;
        insert_text(uris, uri)?;
    }
    Ok(())
}

// Returns the artifacts of sources.
fn artifacts_of(alloc: Global, names: &[SourceId<'_>]) -> Result<Artifacts, AllocError>
    ensures { IfOk result (λ it. artifacts_view it ≡ artifacts_in (source_names_of names.now)) }
{
    let mut untitled = IndexSet::new(alloc);
    insert_untitled(&mut untitled, names)?;
    let mut uris = IndexSet::new(alloc);
    insert_uris(&mut uris, alloc, &untitled, names)?;
    Ok(Artifacts { untitled, uris })
}

/// Returns the artifacts of findings.
pub fn artifacts_in(alloc: Global, findings: &[Finding<'_>]) -> Result<Artifacts, AllocError>
    ensures { IfOk result (λ it. artifacts_view it ≡ artifacts_in (all_named (sarif_findings_of findings.now))) }
{
    let mut names = Vec::new(alloc);
    push_all_named(&mut names, findings)?;
    artifacts_of(alloc, &names)
}

// `{"location": {"uri": "a.rs"}}`
fn push_artifact(json: &mut JsonWriter, uri: &str) -> Result<(), AllocError>
    ensures { OnOk result (json.new ≡ with_value (artifact uri.now) json.old) }
{
    json.begin_object()?;
    json.key("location")?;
    json.begin_object()?;
    json.string_member("uri", uri)?;
    json.end_object()?;
    json.end_object()
}

// Writes the list of artifacts, one for each URI.
fn push_artifacts(json: &mut JsonWriter, uris: &[String]) -> Result<(), AllocError>
    ensures { OnOk result (json.new ≡ with_value (array_of (map artifact (texts_of uris.now))) json.old) }
{
    json.begin_list()?;
    for uri in uris {
        push_artifact(json, uri.as_str())?;
    }
    json.end_list()
}

// `{"uri": "a.rs","index": 0}`
fn push_artifact_location_at(
    json: &mut JsonWriter,
    uri: &str,
    index: usize,
) -> Result<(), AllocError>
    ensures { OnOk result (json.new ≡ with_value
        (object_of (pair (codes "uri") (string uri.now) ++ pair (codes "index") (number index))) json.old) }
{
    json.begin_object()?;
    json.string_member("uri", uri)?;
    json.number_member("index", index)?;
    json.end_object()
}

impl Artifacts {
    /// Returns the URI of a source.
    pub fn uri(&self, alloc: Global, source: SourceId<'_>) -> Result<String, AllocError>
        ensures { IfOk result (λ uri. string_bytes uri ≡ uri_of (artifacts_view self.now).untitled
            (source_name_of source.entry)) }
    {
        uri_of(alloc, &self.untitled, &source)
    }

    /// Writes `{"uri": "a.rs","index": 0}`: the URI of a source, and the index of its artifact.
    pub(crate) fn push_artifact_location(
        &self,
        json: &mut JsonWriter,
        source: SourceId<'_>,
    ) -> Result<(), AllocError>
        ensures { OnOk result (json.new
            ≡ with_value (artifact_location (artifacts_view self.now) (source_name_of source.entry)) json.old) }
    {
        let uri = uri_of(json.allocator(), &self.untitled, &source)?;
        let text = uri.as_str();
        let index = self.uris.get_index_of(text).unwrap_or(0);
        push_artifact_location_at(json, text, index)
    }

    /// Writes `"artifacts": [{"location": {"uri": "a.rs"}}]`, or nothing without artifacts.
    pub(crate) fn push_all(&self, json: &mut JsonWriter) -> Result<(), AllocError>
        ensures { OnOk result (json.new
            ≡ with_pairs (listed (codes "artifacts") (artifact_values (artifacts_view self.now))) json.old) }
    {
        let uris = self.uris.as_slice();
        if uris.is_empty() {
            return Ok(());
        }
        json.key("artifacts")?;
        push_artifacts(json, uris)
    }
}
