//! The annotations of a rustc message: those of its spans, notes, helps and macro calls.

ghost use Rattle.std.specs.Prelude.{◌≡◌, ◌++◌, ◌∷◌, [], IfOk, OnOk, filter, map, option_map, string_bytes};
ghost use Rattle.std.specs.List.{filter_map, flat_map};
ghost use Rattle.std.specs.Option.{option_copied};
ghost use Rattle.serde_json.specs.View.{view};
ghost use Rattle.miette_read.specs.rules.Rustc.{call_annotation, outer_call_annotation};
ghost use Rattle.miette_read.specs.rules.Rustc.{child_annotations, is_help, label_rows, note_annotations};
ghost use Rattle.miette_read.specs.rules.Rustc.{macro_annotation, maybe_row};
ghost use Rattle.miette_read.specs.rules.Rustc.{message_of, unmoved_annotation, note_message, note_annotation};
ghost use Rattle.miette_read.specs.rules.Rustc.{own_annotation};
ghost use Rattle.miette_read.specs.rules.Rustc.{span_annotation, own_span_annotations, is_annotation, text_annotation};
ghost use Rattle.miette_read.specs.rules.Rustc.{message_annotations};
ghost use Rattle.miette_read.specs.views.Builds.{built};
ghost use Rattle.miette_read.specs.views.Values.{values_behind};

use crate::files::Files;
use crate::lists::push_item;
use crate::location::Annotation;
use crate::members::{member_nonempty_text, member_object, member_objects, member_text};
use crate::rows::push_row_copy;
use crate::spans::{
    annotation_spans, call_text, edits_in_child, expansion_of, holds_span, is_primary,
    outermost_from, rustc_location, spans_of,
};
use crate::user_span::Build;
use serde_json::Value;
use std::alloc::{AllocError, Global};

// How deep macro calls are followed.
const CALLS: usize = 64;

/// Returns the text of a message, note or help, or an empty text.
pub(crate) fn message_of(value: &Value) -> &str
    ensures { result.now ≡ message_of (view value.now) }
{
    member_text(value, "message").unwrap_or("")
}

/// Returns whether a child is a help.
pub(crate) fn is_help(child: &Value) -> bool
    ensures { result ≡ is_help (view child.now) }
{
    member_text(child, "level").unwrap_or("") == "help"
}

/// Returns the given line, if there is one, and the span's label.
fn rows_at(alloc: Global, row: Option<&str>, span: &Value) -> Result<Vec<String>, AllocError>
    ensures { IfOk result (λ rows. map string_bytes rows.items
        ≡ maybe_row (option_copied row.entry) ++ label_rows (view span.now)) }
{
    let mut rows = Vec::new(alloc);
    if let Some(row) = row {
        push_row_copy(&mut rows, alloc, row)?;
    }
    if let Some(label) = member_nonempty_text(span, "label") {
        push_row_copy(&mut rows, alloc, label)?;
    }
    Ok(rows)
}

/// Returns the annotation of a span with this line before its label.
fn annotate_span<'v, F: Files>(
    alloc: Global,
    build: &Build<'_, '_, F>,
    row: Option<&str>,
    own: bool,
    span: &'v Value,
) -> Result<Annotation<'v>, AllocError>
    ensures { IfOk result (λ told.
        told ≡ span_annotation (built F.found build.now) (maybe_row (option_copied row.entry)) own (view span.now)) }
{
    let rows = rows_at(alloc, row, span)?;
    Ok(Annotation {
        rows,
        place: Some(rustc_location(build.user_span(span))),
        primary: is_primary(span),
        own,
    })
}

/// Returns an annotation without a location.
fn text_annotation<'v>(alloc: Global, text: &str) -> Result<Annotation<'v>, AllocError>
    ensures { IfOk result (λ told. told ≡ text_annotation text.now) }
{
    let mut rows = Vec::new(alloc);
    push_row_copy(&mut rows, alloc, text)?;
    Ok(Annotation {
        rows,
        place: None,
        primary: false,
        own: false,
    })
}

/// Returns an annotation at a macro call.
fn call_annotation<'v>(
    alloc: Global,
    text: &str,
    call: &'v Value,
) -> Result<Annotation<'v>, AllocError>
    ensures { IfOk result (λ told. told ≡ call_annotation text.now (view call.now)) }
{
    let mut rows = Vec::new(alloc);
    push_row_copy(&mut rows, alloc, text)?;
    Ok(Annotation {
        rows,
        place: Some(rustc_location(call)),
        primary: false,
        own: false,
    })
}

/// Returns an annotation without text at the span's own location, if the span's annotation moved to another file.
fn unmoved_annotation<'v, F: Files>(
    alloc: Global,
    build: &Build<'_, '_, F>,
    span: &'v Value,
) -> Option<Annotation<'v>>
    ensures { result ≡ unmoved_annotation (built F.found build.now) (view span.now) }
{
    if !build.is_moved(span) {
        return None;
    }
    Some(Annotation {
        rows: Vec::new(alloc),
        place: Some(rustc_location(span)),
        primary: false,
        own: false,
    })
}

/// Returns a macro call and rustc's text there, unless the call contains the span.
fn call_at<'v, F: Files>(
    build: &Build<'_, '_, F>,
    span: &'v Value,
    outer: &'v Value,
) -> Option<(&'v Value, &'static str)>
    ensures { option_map (λ it. call_annotation it.1.now (view it.0.now)) result
        ≡ outer_call_annotation (built F.found build.now) (view span.now) (view outer.now) }
{
    let call = member_object(outer, "span")?;
    if holds_span(call, build.user_span(span)) {
        return None;
    }
    let text = call_text(member_text(outer, "macro_decl_name").unwrap_or(""))?;
    Some((call, text))
}

/// Returns the annotation at the outermost macro call, unless that call contains the span.
fn macro_annotation<'v, F: Files>(
    alloc: Global,
    build: &Build<'_, '_, F>,
    span: &'v Value,
) -> Result<Option<Annotation<'v>>, AllocError>
    ensures { IfOk result (λ o. o ≡ macro_annotation (built F.found build.now) (view span.now)) }
{
    let Some(expansion) = expansion_of(span) else {
        return Ok(None);
    };
    let outer = outermost_from(expansion, CALLS);
    match call_at(build, span, outer) {
        Some((call, text)) => Ok(Some(call_annotation(alloc, text, call)?)),
        None => Ok(None),
    }
}

/// Appends the annotations of a note's spans. The first one has the note's message.
fn push_leading<'v, F: Files>(
    list: &mut Vec<Annotation<'v>>,
    alloc: Global,
    build: &Build<'_, '_, F>,
    row: Option<&str>,
    spans: &[&'v Value],
) -> Result<(), AllocError>
    ensures { OnOk result (list.new.items
        ≡ list.old.items ++ note_annotations (built F.found build.now) (maybe_row (option_copied row.entry))
        (values_behind spans.now)) }
{
    let Some((first, rest)) = spans.split_first() else {
        return Ok(());
    };
    let first = *first;
    let told = annotate_span(alloc, build, row, false, first)?;
    push_item(list, told)?;
    for span in rest {
        let span = *span;
        let told = annotate_span(alloc, build, None, false, span)?;
        push_item(list, told)?;
    }
    Ok(())
}

/// Returns the message of a note, or `help: ` and the message of a help.
fn note_message(alloc: Global, child: &Value) -> Result<String, AllocError>
    ensures { IfOk result (λ text. string_bytes text ≡ note_message (view child.now)) }
{
    let mut text = String::new(alloc);
    if is_help(child) {
        text.push_str("help: ")?;
    }
    text.push_str(message_of(child))?;
    Ok(text)
}

/// Appends the annotations of a suggestion's labeled spans.
fn push_beside<'v, F: Files>(
    list: &mut Vec<Annotation<'v>>,
    alloc: Global,
    build: &Build<'_, '_, F>,
    spans: &[&'v Value],
) -> Result<(), AllocError>
    ensures { OnOk result (list.new.items
        ≡ list.old.items ++ note_annotations (built F.found build.now) []
        (filter is_annotation (values_behind spans.now))) }
{
    let spans = annotation_spans(alloc, spans)?;
    push_leading(list, alloc, build, None, spans.as_slice())
}

/// Appends the annotations of a note or help. A note without spans has its message only.
fn push_child<'v, F: Files>(
    list: &mut Vec<Annotation<'v>>,
    alloc: Global,
    build: &Build<'_, '_, F>,
    child: &'v Value,
) -> Result<(), AllocError>
    ensures { OnOk result (list.new.items ≡ list.old.items ++ child_annotations (built F.found build.now)
        (view child.now)) }
{
    let spans = spans_of(alloc, child)?;
    if !edits_in_child(alloc, child)?.is_empty() {
        return push_beside(list, alloc, build, spans.as_slice());
    }
    if !spans.is_empty() {
        let message = note_message(alloc, child)?;
        return push_leading(list, alloc, build, Some(message.as_str()), spans.as_slice());
    }
    if is_help(child) {
        return Ok(());
    }
    let told = text_annotation(alloc, message_of(child))?;
    push_item(list, told)
}

/// Appends the annotations of the message's own spans.
fn push_own<'v, F: Files>(
    list: &mut Vec<Annotation<'v>>,
    alloc: Global,
    build: &Build<'_, '_, F>,
    spans: &[&'v Value],
) -> Result<(), AllocError>
    ensures { OnOk result (list.new.items
        ≡ list.old.items ++ map (own_annotation (built F.found build.now)) (values_behind spans.now)) }
{
    for span in spans {
        let span = *span;
        let told = annotate_span(alloc, build, None, true, span)?;
        push_item(list, told)?;
    }
    Ok(())
}

/// Appends the original locations of spans whose annotations moved.
fn push_moved<'v, F: Files>(
    list: &mut Vec<Annotation<'v>>,
    alloc: Global,
    build: &Build<'_, '_, F>,
    spans: &[&'v Value],
) -> Result<(), AllocError>
    ensures { OnOk result (list.new.items
        ≡ list.old.items ++ filter_map (unmoved_annotation (built F.found build.now)) (values_behind spans.now)) }
{
    for span in spans {
        let span = *span;
        if let Some(told) = unmoved_annotation(alloc, build, span) {
            push_item(list, told)?;
        }
    }
    Ok(())
}

/// Appends the annotations at the macro calls of these spans.
fn push_calls<'v, F: Files>(
    list: &mut Vec<Annotation<'v>>,
    alloc: Global,
    build: &Build<'_, '_, F>,
    spans: &[&'v Value],
) -> Result<(), AllocError>
    ensures { OnOk result (list.new.items
        ≡ list.old.items ++ filter_map (macro_annotation (built F.found build.now)) (values_behind spans.now)) }
{
    for span in spans {
        let span = *span;
        if let Some(told) = macro_annotation(alloc, build, span)? {
            push_item(list, told)?;
        }
    }
    Ok(())
}

/// Appends the annotations of notes and helps.
fn push_children<'v, F: Files>(
    list: &mut Vec<Annotation<'v>>,
    alloc: Global,
    build: &Build<'_, '_, F>,
    children: &[&'v Value],
) -> Result<(), AllocError>
    ensures { OnOk result (list.new.items
        ≡ list.old.items ++ flat_map (child_annotations (built F.found build.now)) (values_behind children.now)) }
{
    for child in children {
        let child = *child;
        push_child(list, alloc, build, child)?;
    }
    Ok(())
}

/// Appends all annotations of the message's own spans: where they are shown, where they were in macros, and at macro
/// calls.
fn push_all_own<'v, F: Files>(
    list: &mut Vec<Annotation<'v>>,
    alloc: Global,
    build: &Build<'_, '_, F>,
    spans: &[&'v Value],
) -> Result<(), AllocError>
    ensures { OnOk result (list.new.items ≡ list.old.items ++ own_span_annotations (built F.found build.now)
        (values_behind spans.now)) }
{
    push_own(list, alloc, build, spans)?;
    push_moved(list, alloc, build, spans)?;
    push_calls(list, alloc, build, spans)
}

/// Returns all annotations of a message: those of its own spans, notes and helps.
pub(crate) fn message_annotations<'v, F: Files>(
    alloc: Global,
    build: &Build<'_, '_, F>,
    message: &'v Value,
) -> Result<Vec<Annotation<'v>>, AllocError>
    ensures { IfOk result (λ list. list.items ≡ message_annotations (built F.found build.now) (view message.now)) }
{
    let spans = spans_of(alloc, message)?;
    let children = member_objects(alloc, message, "children")?;
    let mut list = Vec::new(alloc);
    push_all_own(&mut list, alloc, build, spans.as_slice())?;
    push_children(&mut list, alloc, build, children.as_slice())?;
    Ok(list)
}
