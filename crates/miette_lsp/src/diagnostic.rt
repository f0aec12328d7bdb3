//! Diagnostics of the Language Server Protocol, one for each finding.

ghost use Rattle.std.specs.Prelude.{◌≡◌, OnOk, codes, map};
ghost use Rattle.std.specs.List.{list_any};
ghost use Rattle.std.specs.Option.{option_copied, option_map};
ghost use Rattle.miette_json.specs.rules.Writing.{with_items, with_value};
ghost use Rattle.miette_lsp.specs.rules.Diagnostics.{code_pairs, data_pairs, diagnostic, diagnostic_head_pairs, href};
ghost use Rattle.miette_lsp.specs.rules.Diagnostics.{href_pairs};
ghost use Rattle.miette_lsp.specs.rules.Diagnostics.{related_text_at, related_at, related_values_of, related_value};
ghost use Rattle.miette_lsp.specs.rules.Diagnostics.{lsp_fix_values, severity};
ghost use Rattle.miette_lsp.specs.rules.Diagnostics.{diagnostic_tail_pairs, message_pairs};
ghost use Rattle.miette_lsp.specs.steps.Putting.{is_related};
ghost use Rattle.miette_sarif.specs.rules.Artifacts.{uri_of};
ghost use Rattle.miette_sarif.specs.rules.Objects.{array_of, items_of, listed};
ghost use Rattle.miette_sarif.specs.steps.Members.{with_pairs};
ghost use Rattle.miette_sarif.specs.views.Artifacts.{artifacts_view};
ghost use Rattle.miette_sarif.specs.views.Findings.{area_of, finding_of, mark_of, source_name_of, place_of};
ghost use Rattle.miette_sarif.specs.views.Findings.{applicable_fix_of};

use crate::edits::push_fixes;
use crate::message::diagnostic_message_text;
use crate::places::{primary_area, push_area_range, push_location};
use miette_json::writer::JsonWriter;
use miette_sarif::artifacts::Artifacts;
use miette_sarif::finding::{Finding, PhysicalLocation, Proposal, SarifLocation, SarifRegion};
use miette_sarif::uri::{address_uri, is_absolute_uri};
use std::alloc::AllocError;

// The protocol's severity of a level: 1 for errors, 2 for warnings, 3 for advice.
fn severity(level: &str) -> usize
    ensures { result ≡ severity level.now }
{
    if level == "warning" {
        return 2;
    }
    if level == "note" {
        return 3;
    }
    1
}

// `"codeDescription": {"href": "https://x.org/bad"}`
fn push_address(json: &mut JsonWriter, url: &str) -> Result<(), AllocError>
    ensures { OnOk result (json.new ≡ with_pairs (href url.now) json.old) }
{
    let uri = address_uri(json.allocator(), url)?;
    json.key("codeDescription")?;
    json.begin_object()?;
    json.string_member("href", uri.as_str())?;
    json.end_object()
}

// Writes that member if the url is absolute.
fn push_href(json: &mut JsonWriter, url: Option<&str>) -> Result<(), AllocError>
    ensures { OnOk result (json.new ≡ with_pairs (href_pairs (option_copied url.entry)) json.old) }
{
    let Some(url) = url else {
        return Ok(());
    };
    if !is_absolute_uri(url) {
        return Ok(());
    }
    push_address(json, url)
}

// Writes a code and its address, unless the code is empty.
fn push_code(json: &mut JsonWriter, code: &str, url: Option<&str>) -> Result<(), AllocError>
    ensures { OnOk result (json.new ≡ with_pairs (code_pairs code.now (option_copied url.entry)) json.old) }
{
    if code.is_empty() {
        return Ok(());
    }
    json.string_member("code", code)?;
    push_href(json, url)
}

// `{"location": {..},"message": "defined here"}`
fn push_related_value(
    json: &mut JsonWriter,
    uri: &str,
    area: Option<SarifRegion<'_>>,
    text: &str,
) -> Result<(), AllocError>
    ensures { OnOk result (json.new
        ≡ with_value (related_value uri.now (option_map area_of area.entry) text.now) json.old) }
{
    json.begin_object()?;
    json.key("location")?;
    push_location(json, uri, area)?;
    json.string_member("message", text)?;
    json.end_object()
}

// Writes a text at a location.
fn push_at(
    json: &mut JsonWriter,
    artifacts: &Artifacts,
    place: PhysicalLocation<'_>,
    text: &str,
) -> Result<(), AllocError>
    ensures { OnOk result (json.new ≡ with_value
        (related_value (uri_of (artifacts_view artifacts.now).untitled (source_name_of place.entry.source))
        (option_map area_of place.entry.area) text.now) json.old) }
{
    let uri = artifacts.uri(json.allocator(), place.source)?;
    push_related_value(json, uri.as_str(), place.area, text)
}

// Writes a text at a location, if there is one.
fn push_placed(
    json: &mut JsonWriter,
    artifacts: &Artifacts,
    mark: &SarifLocation<'_>,
) -> Result<(), AllocError>
    ensures { OnOk result (json.new ≡ with_items (items_of (related_text_at (artifacts_view artifacts.now).untitled
        (option_map place_of mark.now.place) mark.now.text.now)) json.old) }
{
    match mark.place {
        Some(place) => push_at(json, artifacts, place, mark.text),
        None => Ok(()),
    }
}

// Writes a label, if it has a source and a text.
fn push_related(
    json: &mut JsonWriter,
    artifacts: &Artifacts,
    mark: &SarifLocation<'_>,
) -> Result<(), AllocError>
    ensures { OnOk result (json.new
        ≡ with_items (items_of (related_at (artifacts_view artifacts.now).untitled (mark_of mark.now))) json.old) }
{
    if mark.text.is_empty() {
        return Ok(());
    }
    push_placed(json, artifacts, mark)
}

// Writes the list of the labels that have a source and a text.
fn push_all_related(
    json: &mut JsonWriter,
    artifacts: &Artifacts,
    locations: &[SarifLocation<'_>],
) -> Result<(), AllocError>
    ensures { OnOk result (json.new ≡ with_value
        (array_of (related_values_of (artifacts_view artifacts.now).untitled (map mark_of locations.now))) json.old) }
{
    json.begin_list()?;
    for mark in locations {
        push_related(json, artifacts, mark)?;
    }
    json.end_list()
}

// Whether a label has a source and a text.
fn is_related(label: &SarifLocation<'_>) -> bool
    ensures { result ≡ is_related (mark_of label.now) }
{
    if label.text.is_empty() {
        return false;
    }
    label.place.is_some()
}

// Whether one of the labels has a source and a text.
fn has_related(locations: &[SarifLocation<'_>]) -> bool
    ensures { result ≡ list_any is_related (map mark_of locations.now) }
{
    locations.iter().any(|mark| is_related(mark))
}

// `"relatedInformation": [..]`, or nothing without labels that have a source and a text.
fn push_related_information(
    json: &mut JsonWriter,
    artifacts: &Artifacts,
    locations: &[SarifLocation<'_>],
) -> Result<(), AllocError>
    ensures { OnOk result (json.new ≡ with_pairs (listed (codes "relatedInformation")
        (related_values_of (artifacts_view artifacts.now).untitled (map mark_of locations.now))) json.old) }
{
    if !has_related(locations) {
        return Ok(());
    }
    json.key("relatedInformation")?;
    push_all_related(json, artifacts, locations)
}

// `"data": {"fixes": [..]}`, or nothing without fixes.
fn push_data(
    json: &mut JsonWriter,
    artifacts: &Artifacts,
    fixes: &[Proposal<'_>],
) -> Result<(), AllocError>
    ensures { OnOk result (json.new ≡ with_pairs
        (data_pairs (lsp_fix_values (artifacts_view artifacts.now).untitled (map applicable_fix_of fixes.now)))
        json.old) }
{
    if fixes.is_empty() {
        return Ok(());
    }
    json.key("data")?;
    json.begin_object()?;
    json.key("fixes")?;
    push_fixes(json, artifacts, fixes)?;
    json.end_object()
}

// The range, severity and code of a finding.
fn push_head(json: &mut JsonWriter, finding: &Finding<'_>) -> Result<(), AllocError>
    ensures { OnOk result (json.new ≡ with_pairs (diagnostic_head_pairs (finding_of finding.now)) json.old) }
{
    json.key("range")?;
    push_area_range(json, primary_area(&finding.primary))?;
    json.number_member("severity", severity(finding.report_texts.level))?;
    push_code(json, finding.report_texts.code, finding.report_texts.url)
}

// Writes the tool's name and the message.
fn push_source_and_message(
    json: &mut JsonWriter,
    tool: &str,
    finding: &Finding<'_>,
) -> Result<(), AllocError>
    ensures { OnOk result (json.new ≡ with_pairs (message_pairs tool.now (finding_of finding.now)) json.old) }
{
    let message = diagnostic_message_text(json.allocator(), finding)?;
    json.string_member("source", tool)?;
    json.string_member("message", message.as_str())
}

// Writes other labels and fixes.
fn push_tail(
    json: &mut JsonWriter,
    artifacts: &Artifacts,
    finding: &Finding<'_>,
) -> Result<(), AllocError>
    ensures { OnOk result (json.new ≡ with_pairs
        (diagnostic_tail_pairs (artifacts_view artifacts.now).untitled (finding_of finding.now)) json.old) }
{
    push_related_information(json, artifacts, &finding.locations)?;
    push_data(json, artifacts, &finding.fixes)
}

/// Writes the diagnostic of a finding by a tool with this name. It has `range`, `severity`, `source` and `message`,
/// and if there are any `code`, `codeDescription`, `relatedInformation` and `data`.
///
/// # Errors
/// `AllocError` if allocation fails.
pub fn push_diagnostic(
    json: &mut JsonWriter,
    tool: &str,
    artifacts: &Artifacts,
    finding: &Finding<'_>,
) -> Result<(), AllocError>
    ensures { OnOk result (json.new ≡ with_value
        (diagnostic tool.now (artifacts_view artifacts.now).untitled (finding_of finding.now)) json.old) }
{
    json.begin_object()?;
    push_head(json, finding)?;
    push_source_and_message(json, tool, finding)?;
    push_tail(json, artifacts, finding)?;
    json.end_object()
}
