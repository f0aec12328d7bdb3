//! The members `snippets` (labels over further sources) and `fixes`. Each is left out if it would be empty.

ghost use Rattle.std.specs.Prelude.{◌≡◌, OnOk, map, codes};
ghost use Rattle.miette_tree.specs.rules.Tree.{head};
ghost use Rattle.miette_tree.specs.views.Attachments.{section_of};
ghost use Rattle.miette_tree.specs.views.Owned.{ref_source};
ghost use Rattle.miette_tree.specs.views.Report.{tree_of};
ghost use Rattle.miette_json.specs.rules.Json.{array};
ghost use Rattle.miette_json.specs.rules.JsonReport.{edit_json, edits_json, fix_json, fixes_json};
ghost use Rattle.miette_json.specs.rules.Writing.{with_value};
ghost use Rattle.miette_json.specs.steps.JsonParts.{with_optional_list, AppendsSnippetsAndFixes};
ghost use Rattle.miette_json.specs.steps.JsonParts.{AppendsSection, AppendsSections, AppendsJsonSnippets};

use crate::labels::{push_labels, push_span, source_file_name};
use crate::writer::JsonWriter;
use miette_fixes::fix::{Edit, Fix};
use miette_protocol::protocol::{Diagnostic, LabeledSpan};
use miette_protocol::source::SourceCode;
use miette_tree::report::{Report, Snippets, SourceRef};
use std::alloc::AllocError;

/// `"snippets": [..],"fixes": [..]`
pub(crate) fn push_snippets_and_fixes<D: Diagnostic, S: SourceCode>(
    json: &mut JsonWriter,
    report: &Report<D, S>,
) -> Result<(), AllocError>
    ensures { OnOk result (AppendsSnippetsAndFixes (head (tree_of D.meaning S.source report.now))
        json.old json.new) }
{
    push_snippets(json, report.further_snippets())?;
    push_fixes(json, report.fixes())
}

/// `"snippets": [..]`, or nothing without further sources.
fn push_snippets<S: SourceCode>(
    json: &mut JsonWriter,
    sections: &[Snippets<S>],
) -> Result<(), AllocError>
    ensures { OnOk result (AppendsJsonSnippets (map (section_of S.source) sections.now) json.old json.new) }
{
    if sections.is_empty() {
        return Ok(());
    }
    json.key("snippets")?;
    push_sections(json, sections)
}

/// Appends the list of further sources.
fn push_sections<S: SourceCode>(
    json: &mut JsonWriter,
    sections: &[Snippets<S>],
) -> Result<(), AllocError>
    ensures { OnOk result (AppendsSections (map (section_of S.source) sections.now) json.old json.new) }
{
    json.begin_list()?;
    for section in sections {
        push_section(json, section.labels(), section.source())?;
    }
    json.end_list()
}

/// `{"filename": "b.rs","labels": [..]}`
fn push_section<S: SourceCode>(
    json: &mut JsonWriter,
    labels: &[LabeledSpan],
    source: SourceRef<'_, S>,
) -> Result<(), AllocError>
    ensures { OnOk result (AppendsSection (ref_source S.source source.entry) labels.now json.old json.new) }
{
    json.begin_object()?;
    json.string_member("filename", source_file_name(labels, source))?;
    json.key("labels")?;
    push_labels(json, labels)?;
    json.end_object()
}

/// `"fixes": [..]`, or nothing without fixes.
fn push_fixes(json: &mut JsonWriter, fixes: &[Fix]) -> Result<(), AllocError>
    ensures { OnOk result (json.new ≡ with_optional_list (codes "fixes") (fixes_json fixes.now) json.old) }
{
    if fixes.is_empty() {
        return Ok(());
    }
    json.key("fixes")?;
    push_fix_items(json, fixes)
}

/// Appends the list of fixes.
fn push_fix_items(json: &mut JsonWriter, fixes: &[Fix]) -> Result<(), AllocError>
    ensures { OnOk result (json.new ≡ with_value (array (fixes_json fixes.now)) json.old) }
{
    json.begin_list()?;
    for fix in fixes {
        push_fix(json, fix)?;
    }
    json.end_list()
}

/// `{"message": "m","applicability": "machine-applicable","edits": [..]}`
fn push_fix(json: &mut JsonWriter, fix: &Fix) -> Result<(), AllocError>
    ensures { OnOk result (json.new ≡ with_value (fix_json fix.now) json.old) }
{
    json.begin_object()?;
    json.string_member("message", fix.message())?;
    json.string_member("applicability", fix.applicability().name())?;
    json.key("edits")?;
    push_edits(json, fix.edits())?;
    json.end_object()
}

/// Appends the list of edits.
fn push_edits(json: &mut JsonWriter, edits: &[Edit]) -> Result<(), AllocError>
    ensures { OnOk result (json.new ≡ with_value (array (edits_json edits.now)) json.old) }
{
    json.begin_list()?;
    for edit in edits {
        push_edit(json, edit)?;
    }
    json.end_list()
}

/// `{"span": {"offset": 9,"length": 0},"text": ":"}`
fn push_edit(json: &mut JsonWriter, edit: &Edit) -> Result<(), AllocError>
    ensures { OnOk result (json.new ≡ with_value (edit_json edit.now) json.old) }
{
    json.begin_object()?;
    json.key("span")?;
    push_span(json, edit.span())?;
    json.string_member("text", edit.text())?;
    json.end_object()
}
