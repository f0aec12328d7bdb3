//! The file name and the labels of a source.

ghost use Rattle.std.specs.Prelude.{◌≡◌, Some, OnOk};
ghost use Rattle.std.specs.Option.{option_map, option_copied};
ghost use Rattle.miette_tree.specs.views.Owned.{ref_source};
ghost use Rattle.miette_json.specs.rules.Json.{array};
ghost use Rattle.miette_json.specs.rules.JsonReport.{span_json, label_json, labels_json};
ghost use Rattle.miette_json.specs.rules.Writing.{with_value};
ghost use Rattle.miette_json.specs.steps.JsonParts.{NamesFile, AppendsFileAndLabels};

use crate::writer::JsonWriter;
use miette_protocol::protocol::{LabeledSpan, SourceSpan};
use miette_protocol::source::SourceCode;
use miette_tree::report::SourceRef;
use std::alloc::AllocError;

/// `"filename": "f","labels": [..]`
pub(crate) fn push_file_and_labels<S: SourceCode>(
    json: &mut JsonWriter,
    labels: &[LabeledSpan],
    source: Option<SourceRef<'_, S>>,
) -> Result<(), AllocError>
    ensures { OnOk result (AppendsFileAndLabels (option_map (ref_source S.source) source.entry) labels.now
        json.old json.new) }
{
    json.optional_string_member("filename", file_name_for(labels, source))?;
    json.key("labels")?;
    push_labels(json, labels)
}

/// Returns the file name, or `None` without a source.
fn file_name_for<'a, S: SourceCode>(
    labels: &[LabeledSpan],
    source: Option<SourceRef<'a, S>>,
) -> Option<&'a str>
    ensures { NamesFile (option_map (ref_source S.source) source.entry) labels.now (option_copied result) }
{
    match source {
        Some(source) => Some(source_file_name(labels, source)),
        None => None,
    }
}

/// Returns the name that the source gives when the first label is read without context. The name is empty if that read
/// fails, if the source has no name, or if there is no label.
pub(crate) fn source_file_name<'a, S: SourceCode>(
    labels: &[LabeledSpan],
    source: SourceRef<'a, S>,
) -> &'a str
    ensures { NamesFile (Some (ref_source S.source source.entry)) labels.now (Some result.now) }
{
    let Some(label) = labels.first() else {
        return "";
    };
    match source.read_span(label.inner(), 0, 0) {
        Ok(contents) => contents.name().unwrap_or(""),
        Err(_) => "",
    }
}

/// Appends the list of labels.
pub(crate) fn push_labels(json: &mut JsonWriter, labels: &[LabeledSpan]) -> Result<(), AllocError>
    ensures { OnOk result (json.new ≡ with_value (array (labels_json labels.now)) json.old) }
{
    json.begin_list()?;
    for label in labels {
        push_label(json, label)?;
    }
    json.end_list()
}

/// `{"label": "x","span": {"offset": 9,"length": 1}}`
fn push_label(json: &mut JsonWriter, label: &LabeledSpan) -> Result<(), AllocError>
    ensures { OnOk result (json.new ≡ with_value (label_json label.now) json.old) }
{
    json.begin_object()?;
    json.optional_string_member("label", label.label())?;
    json.key("span")?;
    push_span(json, label.inner())?;
    json.end_object()
}

/// `{"offset": 9,"length": 1}`
pub(crate) fn push_span(json: &mut JsonWriter, span: &SourceSpan) -> Result<(), AllocError>
    ensures { OnOk result (json.new ≡ with_value (span_json span.now) json.old) }
{
    json.begin_object()?;
    json.number_member("offset", span.offset())?;
    json.number_member("length", span.len())?;
    json.end_object()
}
