//! Results, one for each finding.

ghost use Rattle.std.specs.Prelude.{◌≡◌, ◌++◌, IfOk, OnOk, codes, map, string_bytes};
ghost use Rattle.std.specs.Option.{option_map};
ghost use Rattle.std.specs.Str.{bytes_eq};
ghost use Rattle.indexmap.specs.IndexSet.{insert_all};
ghost use Rattle.miette_json.specs.rules.Json.{json_text};
ghost use Rattle.miette_json.specs.rules.Writing.{with_value};
ghost use Rattle.miette_sarif.specs.rules.Objects.{array_of, listed};
ghost use Rattle.miette_sarif.specs.rules.Places.{primary_locations, related_from};
ghost use Rattle.miette_sarif.specs.rules.Results.{change, sarif_fix_value, sarif_fix_values, inserted};
ghost use Rattle.miette_sarif.specs.rules.Results.{replacement};
ghost use Rattle.miette_sarif.specs.rules.Results.{result_of, results, result_tail_pairs};
ghost use Rattle.miette_sarif.specs.steps.Members.{with_pairs};
ghost use Rattle.miette_sarif.specs.views.Artifacts.{artifacts_view};
ghost use Rattle.miette_sarif.specs.views.Findings.{finding_of, sarif_findings_of, mark_of, applicable_fix_of};
ghost use Rattle.miette_sarif.specs.views.Findings.{replacement_value_of};
ghost use Rattle.miette_sarif.specs.views.Findings.{texts_of};
ghost use Rattle.miette_sarif.specs.views.Rules.{rules_view};

use crate::artifacts::Artifacts;
use crate::finding::{Finding, Proposal, Replacement, SarifLocation};
use crate::message::{push_doubled_message, push_plain_message, push_result_message};
use crate::places::{push_location, push_numbered, push_stretch};
use crate::rules::Rules;
use crate::texts::{insert_text, push_texts};
use indexmap::IndexSet;
use miette_json::writer::JsonWriter;
use miette_lines::sums::sum;
use std::alloc::{AllocError, Global};

// `"locations": [{..}]`: the primary location, or nothing without one.
fn push_primary(
    json: &mut JsonWriter,
    artifacts: &Artifacts,
    primary: &Option<SarifLocation<'_>>,
) -> Result<(), AllocError>
    ensures { OnOk result (json.new ≡ with_pairs (listed (codes "locations")
        (primary_locations (artifacts_view artifacts.now) (option_map mark_of primary.now))) json.old) }
{
    match primary {
        Some(mark) => {
            json.key("locations")?;
            json.begin_list()?;
            push_location(json, artifacts, mark)?;
            json.end_list()
        }
        None => Ok(()),
    }
}

// Writes the list of locations, with ids from 1.
fn push_related(
    json: &mut JsonWriter,
    artifacts: &Artifacts,
    locations: &[SarifLocation<'_>],
) -> Result<(), AllocError>
    ensures { OnOk result (json.new ≡ with_value
        (array_of (related_from (artifacts_view artifacts.now) 1 (map mark_of locations.now))) json.old) }
{
    json.begin_list()?;
    let mut id = 1;
    for mark in locations {
        push_numbered(json, artifacts, id, mark)?;
        id = sum(id, 1)?;
    }
    json.end_list()
}

// `"relatedLocations": [{..}]`, or nothing without other labels.
fn push_others(
    json: &mut JsonWriter,
    artifacts: &Artifacts,
    locations: &[SarifLocation<'_>],
) -> Result<(), AllocError>
    ensures { OnOk result (json.new ≡ with_pairs (listed (codes "relatedLocations")
        (related_from (artifacts_view artifacts.now) 1 (map mark_of locations.now))) json.old) }
{
    if locations.is_empty() {
        return Ok(());
    }
    json.key("relatedLocations")?;
    push_related(json, artifacts, locations)
}

// `"insertedContent": {"text": "1"}`
fn push_inserted(json: &mut JsonWriter, text: &str) -> Result<(), AllocError>
    ensures { OnOk result (json.new ≡ with_pairs (inserted text.now) json.old) }
{
    if text.is_empty() {
        return Ok(());
    }
    json.key("insertedContent")?;
    push_plain_message(json, text)
}

// `{"deletedRegion": {..},"insertedContent": {"text": "1"}}`
fn push_replacement(json: &mut JsonWriter, item: &Replacement) -> Result<(), AllocError>
    ensures { OnOk result (json.new ≡ with_value (replacement (replacement_value_of item.now)) json.old) }
{
    json.begin_object()?;
    json.key("deletedRegion")?;
    push_stretch(json, &item.deleted)?;
    push_inserted(json, item.text.as_str())?;
    json.end_object()
}

// Writes the list of a fix's replacements.
fn push_replacements(json: &mut JsonWriter, list: &[Replacement]) -> Result<(), AllocError>
    ensures { OnOk result (json.new
        ≡ with_value (array_of (map replacement (map replacement_value_of list.now))) json.old) }
{
    json.begin_list()?;
    for item in list {
        push_replacement(json, item)?;
    }
    json.end_list()
}

// `{"artifactLocation": {..},"replacements": [..]}`
fn push_change(
    json: &mut JsonWriter,
    artifacts: &Artifacts,
    fix: &Proposal<'_>,
) -> Result<(), AllocError>
    ensures { OnOk result (json.new
        ≡ with_value (change (artifacts_view artifacts.now) (applicable_fix_of fix.now)) json.old) }
{
    json.begin_object()?;
    json.key("artifactLocation")?;
    artifacts.push_artifact_location(json, fix.source)?;
    json.key("replacements")?;
    push_replacements(json, &fix.replacements)?;
    json.end_object()
}

// `{"description": {..},"artifactChanges": [{..}]}`
fn push_fix(
    json: &mut JsonWriter,
    artifacts: &Artifacts,
    fix: &Proposal<'_>,
) -> Result<(), AllocError>
    ensures { OnOk result (json.new
        ≡ with_value (sarif_fix_value (artifacts_view artifacts.now) (applicable_fix_of fix.now)) json.old) }
{
    json.begin_object()?;
    json.key("description")?;
    push_doubled_message(json, fix.message)?;
    json.key("artifactChanges")?;
    json.begin_list()?;
    push_change(json, artifacts, fix)?;
    json.end_list()?;
    json.end_object()
}

// Returns a fix as JSON text.
fn fix_text(alloc: Global, artifacts: &Artifacts, fix: &Proposal<'_>) -> Result<String, AllocError>
    ensures { IfOk result (λ text. string_bytes text
        ≡ json_text (sarif_fix_value (artifacts_view artifacts.now) (applicable_fix_of fix.now))) }
{
    let mut json = JsonWriter::new(alloc);
    push_fix(&mut json, artifacts, fix)?;
    Ok(json.into_text())
}

// Adds the texts of fixes. Duplicates are skipped.
fn insert_fixes(
    texts: &mut IndexSet<String>,
    alloc: Global,
    artifacts: &Artifacts,
    fixes: &[Proposal<'_>],
) -> Result<(), AllocError>
    ensures { OnOk result (texts_of texts.new.keys ≡ insert_all bytes_eq (texts_of texts.old.keys)
        (map json_text (map (sarif_fix_value (artifacts_view artifacts.now)) (map applicable_fix_of fixes.now)))) }
{
    for fix in fixes {
        let text = fix_text(alloc, artifacts, fix)?;
        insert_text(texts, text)?;
    }
    Ok(())
}

// `"fixes": [{..}]` without duplicates, or nothing without fixes.
fn push_fixes(
    json: &mut JsonWriter,
    artifacts: &Artifacts,
    fixes: &[Proposal<'_>],
) -> Result<(), AllocError>
    ensures { OnOk result (json.new ≡ with_pairs (listed (codes "fixes")
        (sarif_fix_values (artifacts_view artifacts.now) (map applicable_fix_of fixes.now))) json.old) }
{
    if fixes.is_empty() {
        return Ok(());
    }
    let alloc = json.allocator();
    let mut texts = IndexSet::new(alloc);
    insert_fixes(&mut texts, alloc, artifacts, fixes)?;
    json.key("fixes")?;
    push_texts(json, texts.as_slice())
}

// Writes locations and fixes of a result.
fn push_tail(
    json: &mut JsonWriter,
    artifacts: &Artifacts,
    finding: &Finding<'_>,
) -> Result<(), AllocError>
    ensures { OnOk result (json.new
        ≡ with_pairs (result_tail_pairs (artifacts_view artifacts.now) (finding_of finding.now)) json.old) }
{
    push_primary(json, artifacts, &finding.primary)?;
    push_others(json, artifacts, &finding.locations)?;
    push_fixes(json, artifacts, &finding.fixes)
}

// Writes the result of a finding.
fn push_result<'a>(
    json: &mut JsonWriter,
    rules: &Rules<'a>,
    artifacts: &Artifacts,
    finding: &Finding<'a>,
) -> Result<(), AllocError>
    ensures { OnOk result (json.new ≡ with_value
        (result_of (rules_view rules.now) (artifacts_view artifacts.now) (finding_of finding.now)) json.old) }
{
    json.begin_object()?;
    rules.push_result_start(json, finding.report_texts.code, finding.report_texts.level)?;
    json.key("message")?;
    push_result_message(json, rules, finding)?;
    push_tail(json, artifacts, finding)?;
    json.end_object()
}

/// Writes the list of results, one for each finding.
pub(crate) fn push_results<'a>(
    json: &mut JsonWriter,
    rules: &Rules<'a>,
    artifacts: &Artifacts,
    findings: &[Finding<'a>],
) -> Result<(), AllocError>
    ensures { OnOk result (json.new ≡ with_value (array_of (results (rules_view rules.now)
        (artifacts_view artifacts.now) (sarif_findings_of findings.now))) json.old) }
{
    json.begin_list()?;
    for finding in findings {
        push_result(json, rules, artifacts, finding)?;
    }
    json.end_list()
}
