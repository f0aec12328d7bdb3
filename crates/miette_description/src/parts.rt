//! Builds the parts of a report from the members of its description.

ghost use Rattle.std.specs.Prelude.{◌≡◌, ◌++◌, Option, Some, None, IfOk, OnOk, option_map, map, string_bytes};
ghost use Rattle.std.specs.Option.{option_copied};
ghost use Rattle.serde_json.specs.Find.{as_str};
ghost use Rattle.miette_description.specs.steps.ParsedValues.{value_data};
ghost use Rattle.miette_protocol.specs.views.Diagnostic.{meaning_of};
ghost use Rattle.miette_description.specs.rules.Members.{at_key, optional_value, list_of, severity_of};
ghost use Rattle.miette_description.specs.rules.Members.{label_of};
ghost use Rattle.miette_description.specs.rules.Members.{meaning_in};

use crate::error::{BuildError, BuildResult};
use crate::json_values::{list_in, member_at, text_in};
use crate::members::{lines_at, needed_text_at, text_at, truth_at, whole_at};
use json::Value;
use miette_protocol::diagnostic::MietteDiagnostic;
use miette_protocol::protocol::{LabeledSpan, Severity};
use std::alloc::{AllocError, Global};

// Returns the value, or the error that the description is invalid.
pub(crate) fn or_bad_description<T>(found: Option<T>) -> BuildResult<T>
    ensures ok { IfOk result (λ it. found ≡ Some it) }
    ensures description { (result ≡ Err BuildError.Description) → found ≡ None }
{
    found.ok_or(BuildError::Description)
}

fn copy_of(alloc: Global, text: Option<&str>) -> Result<Option<String>, AllocError>
    ensures { IfOk result (λ o. option_map string_bytes o ≡ option_copied text.entry) }
{
    match text {
        Some(text) => Ok(Some(String::from_str(alloc, text)?)),
        None => Ok(None),
    }
}

fn label_from(alloc: Global, value: &Value<'_>) -> BuildResult<LabeledSpan>
    ensures ok { IfOk result (λ l. label_of (value_data value.now) ≡ Some l) }
    ensures description { (result ≡ Err BuildError.Description) → label_of (value_data value.now) ≡ None }
{
    let offset = or_bad_description(whole_at(value, "offset"))?;
    let length = or_bad_description(whole_at(value, "length"))?;
    let span = (offset as usize, length as usize);
    let text = or_bad_description(text_at(value, "label"))?;
    let primary = or_bad_description(truth_at(value, "primary"))?;
    let lines = or_bad_description(lines_at(value, "context"))?;
    let Ok(text) = copy_of(alloc, text) else {
        return Err(BuildError::Memory);
    };
    let label = if primary.unwrap_or(false) {
        LabeledSpan::new_primary_with_span(text, span)
    } else {
        LabeledSpan::new_with_span(text, span)
    };
    match lines {
        Some(lines) => Ok(label.with_context_lines(lines as usize)),
        None => Ok(label),
    }
}

fn labels_from(alloc: Global, value: &Value<'_>) -> BuildResult<Vec<LabeledSpan>>
    ensures ok { IfOk result (λ v. list_of label_of (value_data value.now) ≡ Some v.items) }
    ensures description { (result ≡ Err BuildError.Description) → list_of label_of (value_data value.now) ≡ None }
{
    let list = or_bad_description(list_in(value))?;
    let mut labels = Vec::new(alloc);
    for item in list {
        let label = label_from(alloc, item)?;
        if labels.push(label).is_err() {
            return Err(BuildError::Memory);
        }
    }
    Ok(labels)
}

pub(crate) fn labels_at(
    alloc: Global,
    value: &Value<'_>,
    key: &str,
) -> BuildResult<Option<Vec<LabeledSpan>>>
    ensures ok { IfOk result (λ o. optional_value (list_of label_of) (at_key key.now (value_data value.now))
        ≡ Some (option_map (λ v. v.items) o)) }
    ensures description { (result ≡ Err BuildError.Description) →
        optional_value (list_of label_of) (at_key key.now (value_data value.now)) ≡ None }
{
    match member_at(value, key) {
        None => Ok(None),
        Some(found) => Ok(Some(labels_from(alloc, found)?)),
    }
}

fn texts_from(alloc: Global, value: &Value<'_>) -> BuildResult<Vec<String>>
    ensures ok { IfOk result (λ v. list_of as_str (value_data value.now) ≡ Some (map string_bytes v.items)) }
    ensures description { (result ≡ Err BuildError.Description) → list_of as_str (value_data value.now) ≡ None }
{
    let list = or_bad_description(list_in(value))?;
    let mut texts = Vec::new(alloc);
    for item in list {
        let text = or_bad_description(text_in(item))?;
        let Ok(copy) = String::from_str(alloc, text) else {
            return Err(BuildError::Memory);
        };
        if texts.push(copy).is_err() {
            return Err(BuildError::Memory);
        }
    }
    Ok(texts)
}

pub(crate) fn texts_at(
    alloc: Global,
    value: &Value<'_>,
    key: &str,
) -> BuildResult<Option<Vec<String>>>
    ensures ok { IfOk result (λ o. optional_value (list_of as_str) (at_key key.now (value_data value.now))
        ≡ Some (option_map (λ v. map string_bytes v.items) o)) }
    ensures description { (result ≡ Err BuildError.Description) →
        optional_value (list_of as_str) (at_key key.now (value_data value.now)) ≡ None }
{
    match member_at(value, key) {
        None => Ok(None),
        Some(found) => Ok(Some(texts_from(alloc, found)?)),
    }
}

/// Appends copies of texts to a list.
pub(crate) fn push_texts(list: &mut Vec<String>, alloc: Global, texts: &[String]) -> BuildResult<()>
    ensures ok { OnOk result (map string_bytes list.new.items
        ≡ map string_bytes list.old.items ++ map string_bytes texts.now) }
    ensures memory { (result ≡ Err BuildError.Description) → ⊥ }
{
    for text in texts {
        let Ok(copy) = String::from_str(alloc, text.as_str()) else {
            return Err(BuildError::Memory);
        };
        if list.push(copy).is_err() {
            return Err(BuildError::Memory);
        }
    }
    Ok(())
}

fn severity_named(value: &Value<'_>) -> Option<Severity>
    ensures { result ≡ severity_of (value_data value.now) }
{
    let text = text_in(value)?;
    if text == "advice" {
        Some(Severity::Advice)
    } else if text == "warning" {
        Some(Severity::Warning)
    } else if text == "error" {
        Some(Severity::Error)
    } else {
        None
    }
}

fn severity_at(value: &Value<'_>, key: &str) -> Option<Option<Severity>>
    ensures { result ≡ optional_value severity_of (at_key key.now (value_data value.now)) }
{
    match member_at(value, key) {
        None => Some(None),
        Some(found) => Some(Some(severity_named(found)?)),
    }
}

pub(crate) fn diagnostic_from(alloc: Global, value: &Value<'_>) -> BuildResult<MietteDiagnostic>
    ensures ok { IfOk result (λ d. meaning_in (value_data value.now) ≡ Some (meaning_of d)) }
    ensures description { (result ≡ Err BuildError.Description) → meaning_in (value_data value.now) ≡ None }
{
    let message = or_bad_description(needed_text_at(value, "message"))?;
    let code = or_bad_description(text_at(value, "code"))?;
    let severity = or_bad_description(severity_at(value, "severity"))?;
    let help = or_bad_description(text_at(value, "help"))?;
    let url = or_bad_description(text_at(value, "url"))?;
    let labels = labels_at(alloc, value, "labels")?;
    Ok(MietteDiagnostic {
        message: String::from_str(alloc, message)?,
        code: copy_of(alloc, code)?,
        severity,
        help: copy_of(alloc, help)?,
        url: copy_of(alloc, url)?,
        labels,
    })
}
