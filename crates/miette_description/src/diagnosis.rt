//! The part of a description that gives the report itself: a diagnostic, labels over further sources, and fixes.

ghost use Rattle.std.specs.Prelude.{◌≡◌, [], Some, None, IfOk, option_map, map, unwrap_or};
ghost use Rattle.miette_description.specs.rules.Members.{and_then, at_key, optional_value, all_items, list_of};
ghost use Rattle.miette_description.specs.rules.Members.{described_source};
ghost use Rattle.miette_description.specs.rules.Members.{snippets_of, edit_of, applicability_of, fix_of, diagnosis_in};
ghost use Rattle.miette_description.specs.steps.OptionalParts.{edited, diagnosis_of_parts, maybe_snippets, maybe_fixes};
ghost use Rattle.miette_description.specs.steps.ParsedValues.{value_data, list_data};
ghost use Rattle.miette_tree.specs.rules.Tree.{single_report};
ghost use Rattle.miette_tree.specs.views.Attachments.{section_of};
ghost use Rattle.miette_tree.specs.views.Owned.{owned_source};
ghost use Rattle.miette_tree.specs.views.Report.{tree_of};

use crate::error::{BuildError, BuildResult};
use crate::json_values::{list_in, member_at, text_in};
use crate::members::{needed_text_at, whole_at};
use crate::parts::{diagnostic_from, labels_at, or_bad_description};
use crate::source::{needs_index, source_from};
use json::Value;
use miette_fixes::fix::{Applicability, Edit, Fix};
use miette_protocol::diagnostic::MietteDiagnostic;
use miette_protocol::protocol::Diagnostic;
use miette_protocol::source::SourceCode;
use miette_tree::report::{OwnedSource, Report, Snippets};
use std::alloc::Global;

/// A diagnostic, labels over further sources, and fixes, as a description lists them.
#[derive(Drop)]
pub(crate) struct DiagnosisParts<S> {
    diagnostic: MietteDiagnostic,
    snippets: Option<Vec<Snippets<S>>>,
    fixes: Option<Vec<Fix>>,
}

/// Reads these parts of a description.
pub(crate) fn parse_diagnosis<S: SourceCode>(
    alloc: Global,
    value: &Value<'_>,
) -> BuildResult<DiagnosisParts<S>>
    ensures ok { IfOk result (λ said. diagnosis_in (value_data value.now) ≡ Some (diagnosis_of_parts S.source said)) }
    ensures description { (result ≡ Err BuildError.Description) → diagnosis_in (value_data value.now) ≡ None }
{
    let diagnostic = diagnostic_from(alloc, value)?;
    let snippets = sections_at(alloc, value, "snippets")?;
    let fixes = fixes_at(alloc, value, "fixes")?;
    Ok(DiagnosisParts {
        diagnostic,
        snippets,
        fixes,
    })
}

/// Creates the report of these parts, without source, cause and related reports.
pub(crate) fn report_of_diagnosis<D: Diagnostic, S: SourceCode>(
    alloc: Global,
    said: DiagnosisParts<S>,
) -> BuildResult<Report<D, S>>
    ensures ok { IfOk result (λ r. tree_of D.meaning S.source r ≡ single_report (diagnosis_of_parts S.source said)) }
    ensures memory { (result ≡ Err BuildError.Description) → ⊥ }
{
    let DiagnosisParts {
        diagnostic,
        snippets,
        fixes,
    } = said;
    let report = report_with_snippets(alloc, Report::built(diagnostic), snippets)?;
    report_with_fixes(alloc, report, fixes)
}

/// Adds the labels over further sources, if they are listed.
fn report_with_snippets<D: Diagnostic, S: SourceCode>(
    alloc: Global,
    report: Report<D, S>,
    list: Option<Vec<Snippets<S>>>,
) -> BuildResult<Report<D, S>>
    ensures ok { IfOk result (λ r. tree_of D.meaning S.source r
        ≡ maybe_snippets (option_map (λ v. map (section_of S.source) v.items) list)
        (tree_of D.meaning S.source report)) }
    ensures memory { (result ≡ Err BuildError.Description) → ⊥ }
{
    match list {
        Some(list) => Ok(report.with_all_snippets(alloc, list)?),
        None => Ok(report),
    }
}

/// Adds the fixes, if they are listed.
fn report_with_fixes<D: Diagnostic, S: SourceCode>(
    alloc: Global,
    report: Report<D, S>,
    list: Option<Vec<Fix>>,
) -> BuildResult<Report<D, S>>
    ensures ok { IfOk result (λ r. tree_of D.meaning S.source r
        ≡ maybe_fixes (option_map (λ v. v.items) list) (tree_of D.meaning S.source report)) }
    ensures memory { (result ≡ Err BuildError.Description) → ⊥ }
{
    match list {
        Some(list) => Ok(report.with_fixes(alloc, list)?),
        None => Ok(report),
    }
}

/// Reads a required source.
fn needed_source_at(alloc: Global, value: &Value<'_>, key: &str) -> BuildResult<OwnedSource>
    ensures ok { IfOk result (λ s.
        and_then (at_key key.now (value_data value.now)) described_source ≡ Some (owned_source s)) }
    ensures description { (result ≡ Err BuildError.Description) →
        and_then (at_key key.now (value_data value.now)) described_source ≡ None }
{
    let found = or_bad_description(member_at(value, key))?;
    source_from(alloc, found, needs_index(value))
}

/// Reads labels over a further source.
fn section_from<S: SourceCode>(alloc: Global, value: &Value<'_>) -> BuildResult<Snippets<S>>
    ensures ok { IfOk result (λ it. snippets_of (value_data value.now) ≡ Some (section_of S.source it)) }
    ensures description { (result ≡ Err BuildError.Description) → snippets_of (value_data value.now) ≡ None }
{
    let source = needed_source_at(alloc, value, "source")?;
    let labels = labels_at(alloc, value, "labels")?;
    Ok(Snippets::over_owned(source, labels.unwrap_or(Vec::new(alloc))))
}

fn sections_from<S: SourceCode>(alloc: Global, value: &Value<'_>) -> BuildResult<Vec<Snippets<S>>>
    ensures ok { IfOk result (λ v. list_of snippets_of (value_data value.now)
        ≡ Some (map (section_of S.source) v.items)) }
    ensures description { (result ≡ Err BuildError.Description) → list_of snippets_of (value_data value.now) ≡ None }
{
    let list = or_bad_description(list_in(value))?;
    let mut sections = Vec::new(alloc);
    for item in list {
        let section = section_from(alloc, item)?;
        if sections.push(section).is_err() {
            return Err(BuildError::Memory);
        }
    }
    Ok(sections)
}

fn sections_at<S: SourceCode>(
    alloc: Global,
    value: &Value<'_>,
    key: &str,
) -> BuildResult<Option<Vec<Snippets<S>>>>
    ensures ok { IfOk result (λ o. optional_value (list_of snippets_of) (at_key key.now (value_data value.now))
        ≡ Some (option_map (λ v. map (section_of S.source) v.items) o)) }
    ensures description { (result ≡ Err BuildError.Description) →
        optional_value (list_of snippets_of) (at_key key.now (value_data value.now)) ≡ None }
{
    match member_at(value, key) {
        None => Ok(None),
        Some(found) => Ok(Some(sections_from(alloc, found)?)),
    }
}

fn edit_from(alloc: Global, value: &Value<'_>) -> BuildResult<Edit>
    ensures ok { IfOk result (λ edit. edit_of (value_data value.now) ≡ Some edit) }
    ensures description { (result ≡ Err BuildError.Description) → edit_of (value_data value.now) ≡ None }
{
    let offset = or_bad_description(whole_at(value, "offset"))?;
    let length = or_bad_description(whole_at(value, "length"))?;
    let text = or_bad_description(needed_text_at(value, "text"))?;
    let text = String::from_str(alloc, text)?;
    Ok(Edit::replace((offset as usize, length as usize), text))
}

/// Appends the edits of a list to a fix.
fn with_edits(alloc: Global, fix: Fix, list: &[Value<'_>]) -> BuildResult<Fix>
    ensures ok { IfOk result (λ it. option_map (edited fix) (all_items edit_of (list_data list.now)) ≡ Some it) }
    ensures description { (result ≡ Err BuildError.Description) → all_items edit_of (list_data list.now) ≡ None }
{
    let mut fixed = fix;
    for item in list {
        let edit = edit_from(alloc, item)?;
        fixed = fixed.with_edit(edit)?;
    }
    Ok(fixed)
}

fn applicability_named(value: &Value<'_>) -> Option<Applicability>
    ensures { result ≡ applicability_of (value_data value.now) }
{
    let text = text_in(value)?;
    if text == "machine-applicable" {
        Some(Applicability::MachineApplicable)
    } else if text == "maybe-incorrect" {
        Some(Applicability::MaybeIncorrect)
    } else if text == "has-placeholders" {
        Some(Applicability::HasPlaceholders)
    } else if text == "unspecified" {
        Some(Applicability::Unspecified)
    } else {
        None
    }
}

fn applicability_at(value: &Value<'_>, key: &str) -> Option<Option<Applicability>>
    ensures { result ≡ optional_value applicability_of (at_key key.now (value_data value.now)) }
{
    match member_at(value, key) {
        None => Some(None),
        Some(found) => Some(Some(applicability_named(found)?)),
    }
}

/// Appends the edits at a key to a fix.
fn with_edits_at(alloc: Global, fix: Fix, value: &Value<'_>, key: &str) -> BuildResult<Fix>
    ensures ok { IfOk result (λ it.
        option_map (λ edits. edited fix (unwrap_or edits []))
        (optional_value (list_of edit_of) (at_key key.now (value_data value.now))) ≡ Some it) }
    ensures description { (result ≡ Err BuildError.Description) →
        optional_value (list_of edit_of) (at_key key.now (value_data value.now)) ≡ None }
{
    let Some(found) = member_at(value, key) else {
        return Ok(fix);
    };
    let list = or_bad_description(list_in(found))?;
    with_edits(alloc, fix, list)
}

fn fix_from(alloc: Global, value: &Value<'_>) -> BuildResult<Fix>
    ensures ok { IfOk result (λ fix. fix_of (value_data value.now) ≡ Some fix) }
    ensures description { (result ≡ Err BuildError.Description) → fix_of (value_data value.now) ≡ None }
{
    let message = or_bad_description(needed_text_at(value, "message"))?;
    let applicability = or_bad_description(applicability_at(value, "applicability"))?;
    let fix = Fix::new(alloc, message)?;
    let fix = fix.with_applicability(applicability.unwrap_or(Applicability::Unspecified));
    with_edits_at(alloc, fix, value, "edits")
}

fn fixes_from(alloc: Global, value: &Value<'_>) -> BuildResult<Vec<Fix>>
    ensures ok { IfOk result (λ v. list_of fix_of (value_data value.now) ≡ Some v.items) }
    ensures description { (result ≡ Err BuildError.Description) → list_of fix_of (value_data value.now) ≡ None }
{
    let list = or_bad_description(list_in(value))?;
    let mut fixes = Vec::new(alloc);
    for item in list {
        let fix = fix_from(alloc, item)?;
        if fixes.push(fix).is_err() {
            return Err(BuildError::Memory);
        }
    }
    Ok(fixes)
}

fn fixes_at(alloc: Global, value: &Value<'_>, key: &str) -> BuildResult<Option<Vec<Fix>>>
    ensures ok { IfOk result (λ o. optional_value (list_of fix_of) (at_key key.now (value_data value.now))
        ≡ Some (option_map (λ v. v.items) o)) }
    ensures description { (result ≡ Err BuildError.Description) →
        optional_value (list_of fix_of) (at_key key.now (value_data value.now)) ≡ None }
{
    match member_at(value, key) {
        None => Ok(None),
        Some(found) => Ok(Some(fixes_from(alloc, found)?)),
    }
}
