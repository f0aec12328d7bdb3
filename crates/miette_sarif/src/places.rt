//! Regions and locations as JSON.

ghost use Rattle.std.specs.Prelude.{◌≡◌, ◌+◌, ◌++◌, [], None, OnOk, codes, position};
ghost use Rattle.std.specs.Option.{option_map, option_copied};
ghost use Rattle.miette_json.specs.rules.Json.{number};
ghost use Rattle.miette_json.specs.rules.Writing.{with_key, with_value};
ghost use Rattle.miette_json.specs.steps.EscapedBytes.{is_escaped};
ghost use Rattle.miette_sarif.specs.rules.Objects.{object_of, pair};
ghost use Rattle.miette_sarif.specs.rules.Places.{line_pairs, location, place_pairs, place_value};
ghost use Rattle.miette_sarif.specs.rules.Places.{region, region_pairs, snippet_pairs, text_pairs};
ghost use Rattle.miette_sarif.specs.steps.Members.{with_pairs};
ghost use Rattle.miette_sarif.specs.views.Artifacts.{artifacts_view};
ghost use Rattle.miette_sarif.specs.views.Findings.{area_of, mark_of, place_of};

use crate::artifacts::Artifacts;
use crate::finding::{PhysicalLocation, SarifLocation, SarifRegion};
use crate::message::{push_doubled_message, push_plain_message};
use miette_json::writer::JsonWriter;
use miette_lines::sums::sum;
use miette_positions::position::Stretch;
use std::alloc::AllocError;

// Writes a member whose value is an index counted from 1.
#[inline(always)]
fn push_ordinal(json: &mut JsonWriter, key: &str, index: usize) -> Result<(), AllocError>
    requires { position is_escaped key.now ≡ None }
    ensures { OnOk result (json.new ≡ with_value (number (index + 1)) (with_key key.now json.old)) }
{
    let counted = sum(index, 1)?;
    json.number_member(key, counted)
}

// `"startLine": 1,"startColumn": 9,"endLine": 1,"endColumn": 10`
fn push_lines(json: &mut JsonWriter, stretch: &Stretch) -> Result<(), AllocError>
    ensures { OnOk result (json.new ≡ with_pairs (line_pairs stretch.now) json.old) }
{
    push_ordinal(json, "startLine", stretch.start.position.line)?;
    push_ordinal(json, "startColumn", stretch.start.position.column)?;
    push_ordinal(json, "endLine", stretch.end.position.line)?;
    push_ordinal(json, "endColumn", stretch.end.position.column)
}

/// Writes a region with lines and columns only.
pub(crate) fn push_stretch(json: &mut JsonWriter, stretch: &Stretch) -> Result<(), AllocError>
    ensures { OnOk result (json.new ≡ with_value (object_of (line_pairs stretch.now)) json.old) }
{
    json.begin_object()?;
    push_lines(json, stretch)?;
    json.end_object()
}

// `"snippet": {"text": "x"}`
fn push_snippet(json: &mut JsonWriter, snippet: Option<&str>) -> Result<(), AllocError>
    ensures { OnOk result (json.new ≡ with_pairs (snippet_pairs (option_copied snippet.entry)) json.old) }
{
    match snippet {
        Some(text) => {
            json.key("snippet")?;
            push_plain_message(json, text)
        }
        None => Ok(()),
    }
}

// Writes a region: lines, columns, bytes, and its text if the log shows it.
fn push_area(json: &mut JsonWriter, area: &SarifRegion<'_>) -> Result<(), AllocError>
    ensures { OnOk result (json.new ≡ with_value (region (area_of area.now)) json.old) }
{
    let start = area.stretch.start.offset;
    let length = area.stretch.end.offset.saturating_sub(start);
    json.begin_object()?;
    push_lines(json, &area.stretch)?;
    json.number_member("byteOffset", start)?;
    json.number_member("byteLength", length)?;
    push_snippet(json, area.snippet)?;
    json.end_object()
}

// `"region": {..}`
fn push_region(json: &mut JsonWriter, area: &Option<SarifRegion<'_>>) -> Result<(), AllocError>
    ensures { OnOk result (json.new ≡ with_pairs (region_pairs (option_map area_of area.now)) json.old) }
{
    match area {
        Some(area) => {
            json.key("region")?;
            push_area(json, area)
        }
        None => Ok(()),
    }
}

// `{"artifactLocation": {..},"region": {..}}`
fn push_place(
    json: &mut JsonWriter,
    artifacts: &Artifacts,
    place: &PhysicalLocation<'_>,
) -> Result<(), AllocError>
    ensures { OnOk result (json.new
        ≡ with_value (place_value (artifacts_view artifacts.now) (place_of place.now)) json.old) }
{
    json.begin_object()?;
    json.key("artifactLocation")?;
    artifacts.push_artifact_location(json, place.source)?;
    push_region(json, &place.area)?;
    json.end_object()
}

// `"physicalLocation": {..}`
fn push_further_place(
    json: &mut JsonWriter,
    artifacts: &Artifacts,
    place: &Option<PhysicalLocation<'_>>,
) -> Result<(), AllocError>
    ensures { OnOk result (json.new
        ≡ with_pairs (place_pairs (artifacts_view artifacts.now) (option_map place_of place.now)) json.old) }
{
    match place {
        Some(place) => {
            json.key("physicalLocation")?;
            push_place(json, artifacts, place)
        }
        None => Ok(()),
    }
}

// `"message": {"text": "here"}`
fn push_further_text(json: &mut JsonWriter, text: &str) -> Result<(), AllocError>
    ensures { OnOk result (json.new ≡ with_pairs (text_pairs text.now) json.old) }
{
    if text.is_empty() {
        return Ok(());
    }
    json.key("message")?;
    push_doubled_message(json, text)
}

/// Writes a related location: `{"id": 1,"physicalLocation": {..},"message": {..}}`
pub(crate) fn push_numbered(
    json: &mut JsonWriter,
    artifacts: &Artifacts,
    id: usize,
    mark: &SarifLocation<'_>,
) -> Result<(), AllocError>
    ensures { OnOk result (json.new ≡ with_value (location (artifacts_view artifacts.now)
        (pair (codes "id") (number id)) (mark_of mark.now)) json.old) }
{
    json.begin_object()?;
    json.number_member("id", id)?;
    push_further_place(json, artifacts, &mark.place)?;
    push_further_text(json, mark.text)?;
    json.end_object()
}

/// Writes a location without an id: `{"physicalLocation": {..},"message": {..}}`
pub(crate) fn push_location(
    json: &mut JsonWriter,
    artifacts: &Artifacts,
    mark: &SarifLocation<'_>,
) -> Result<(), AllocError>
    ensures { OnOk result (json.new
        ≡ with_value (location (artifacts_view artifacts.now) [] (mark_of mark.now)) json.old) }
{
    json.begin_object()?;
    push_further_place(json, artifacts, &mark.place)?;
    push_further_text(json, mark.text)?;
    json.end_object()
}
