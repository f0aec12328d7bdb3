//! Files that changed since rustc read them.

ghost use Rattle.std.specs.Prelude.{◌≡◌, ◌++◌, IfOk, OnOk, map, string_bytes};
ghost use Rattle.std.specs.List.{flat_map};
ghost use Rattle.serde_json.specs.View.{view};
ghost use Rattle.miette_fixes.specs.rules.Edits.{is_machine_applicable};
ghost use Rattle.miette_read.specs.rules.Rustc.{file_name, rustc_location, span_range};
ghost use Rattle.miette_read.specs.rules.RustcReport.{is_edit_found, span_applicability};
ghost use Rattle.miette_read.specs.views.Values.{values_behind};
ghost use Rattle.miette_show_rows.specs.rules.OutdatedFiles.{outdated_in_child, are_machine_applicable, outdated_among};
ghost use Rattle.miette_show_rows.specs.rules.OutdatedFiles.{outdated_name, is_edit_current};

use crate::current_spans::is_span_current;
use miette_read::files::Files;
use miette_read::lists::push_item;
use miette_read::location::{ByteRange, ToolLocation};
use miette_read::members::{member_number, member_text};
use miette_read::spans::edits_in_child;
use miette_read::suggestions::FileEdit;
use serde_json::Value;
use std::alloc::{AllocError, Global};

/// Returns the file name of an edit.
fn file_name(span: &Value) -> &str
    ensures { result.now ≡ file_name (view span.now) }
{
    member_text(span, "file_name").unwrap_or("")
}

/// Returns the byte range of an edit, if both offsets are there.
fn span_range(span: &Value) -> Option<ByteRange>
    ensures { result ≡ span_range (view span.now) }
{
    let start = member_number(span, "byte_start")?;
    let end = member_number(span, "byte_end")?;
    Some(ByteRange {
        start: start as usize,
        end: end as usize,
    })
}

/// Returns the location of an edit.
fn rustc_location(span: &Value) -> ToolLocation<'_>
    ensures { result ≡ rustc_location (view span.now) }
{
    ToolLocation {
        name: file_name(span),
        stretch: span_range(span),
        line: member_number(span, "line_start").unwrap_or(0),
        column: member_number(span, "column_start").unwrap_or(0),
    }
}

/// Returns whether the location of an edit is found.
fn is_edit_found<F: Files>(files: &F, span: &Value) -> bool
    ensures { result ≡ is_edit_found (F.found files.now) (view span.now) }
{
    match member_text(span, "suggested_replacement") {
        Some(text) => FileEdit::found(files, &rustc_location(span), text).is_some(),
        None => false,
    }
}

/// Returns whether an edit's lines haven't changed, and its location is found.
fn is_edit_current<F: Files>(alloc: Global, files: &F, span: &Value) -> Result<bool, AllocError>
    ensures { IfOk result (λ b. b ≡ is_edit_current (F.found files.now) (view span.now)) }
{
    Ok(is_span_current(alloc, files, span)? && is_edit_found(files, span))
}

/// Returns whether an edit is machine-applicable.
fn is_machine_applicable(span: &Value) -> bool
    ensures { result ≡ is_machine_applicable (span_applicability (view span.now)) }
{
    member_text(span, "suggestion_applicability").unwrap_or("") == "MachineApplicable"
}

/// Returns whether a suggestion with these edits is machine-applicable.
fn are_machine_applicable(spans: &[&Value]) -> bool
    ensures { result ≡ are_machine_applicable (values_behind spans.now) }
{
    match spans.first() {
        Some(first) => is_machine_applicable(*first),
        None => false,
    }
}

/// Appends the file name of an edit, if its lines changed.
fn push_stale<F: Files>(
    names: &mut Vec<String>,
    alloc: Global,
    files: &F,
    span: &Value,
) -> Result<(), AllocError>
    ensures { OnOk result (map string_bytes names.new.items
        ≡ map string_bytes names.old.items ++ outdated_name (F.found files.now) (view span.now)) }
{
    if !is_edit_current(alloc, files, span)? {
        push_item(names, String::from_str(alloc, file_name(span))?)?;
    }
    Ok(())
}

/// Appends the changed files of these edits, if they are machine-applicable.
fn push_among<F: Files>(
    names: &mut Vec<String>,
    alloc: Global,
    files: &F,
    spans: &[&Value],
) -> Result<(), AllocError>
    ensures { OnOk result (map string_bytes names.new.items
        ≡ map string_bytes names.old.items ++ outdated_among (F.found files.now) (values_behind spans.now)) }
{
    if !are_machine_applicable(spans) {
        return Ok(());
    }
    for span in spans {
        let span = *span;
        push_stale(names, alloc, files, span)?;
    }
    Ok(())
}

/// Appends the changed files of a machine-applicable suggestion.
fn push_child<F: Files>(
    names: &mut Vec<String>,
    alloc: Global,
    files: &F,
    child: &Value,
) -> Result<(), AllocError>
    ensures { OnOk result (map string_bytes names.new.items
        ≡ map string_bytes names.old.items ++ outdated_in_child (F.found files.now) (view child.now)) }
{
    let spans = edits_in_child(alloc, child)?;
    push_among(names, alloc, files, spans.as_slice())
}

/// Returns the changed files of these notes and helps.
pub(crate) fn outdated_names<F: Files>(
    alloc: Global,
    files: &F,
    children: &[&Value],
) -> Result<Vec<String>, AllocError>
    ensures { IfOk result (λ list. map string_bytes list.items
        ≡ flat_map (outdated_in_child (F.found files.now)) (values_behind children.now)) }
{
    let mut names = Vec::new(alloc);
    for child in children {
        let child = *child;
        push_child(&mut names, alloc, files, child)?;
    }
    Ok(names)
}
