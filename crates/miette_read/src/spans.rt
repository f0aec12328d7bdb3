//! The spans of rustc messages.

ghost use Rattle.std.specs.Prelude.{◌≡◌, ◌++◌, IfOk, OnOk, codes, filter, option_map};
ghost use Rattle.std.specs.Option.{option_copied};
ghost use Rattle.serde_json.specs.View.{view};
ghost use Rattle.miette_read.specs.rules.Rustc.{call_text, edits_in_child, expansion_of, file_name, holds_span};
ghost use Rattle.miette_read.specs.rules.Rustc.{is_attribute, is_derive, is_invocation};
ghost use Rattle.miette_read.specs.rules.Members.{member_objects};
ghost use Rattle.miette_read.specs.rules.Rustc.{is_primary, outermost_from, rustc_location, is_edit};
ghost use Rattle.miette_read.specs.rules.Rustc.{spans_of, span_range, is_annotation};
ghost use Rattle.miette_read.specs.views.Spans.{takes};
ghost use Rattle.miette_read.specs.views.Values.{values_behind};

use crate::lists::push_item;
use crate::location::{ByteRange, ToolLocation};
use crate::members::{
    member_flag, member_items, member_nonempty_text, member_number, member_object, member_text,
};
use serde_json::Value;
use std::alloc::{AllocError, Global};

/// Returns the byte range, if both offsets are there.
pub(crate) fn span_range(span: &Value) -> Option<ByteRange>
    ensures { result ≡ span_range (view span.now) }
{
    let start = member_number(span, "byte_start")?;
    let end = member_number(span, "byte_end")?;
    Some(ByteRange {
        start: start as usize,
        end: end as usize,
    })
}

/// Returns the file name, or an empty text.
pub(crate) fn file_name(span: &Value) -> &str
    ensures { result.now ≡ file_name (view span.now) }
{
    member_text(span, "file_name").unwrap_or("")
}

/// Returns the span's location.
pub(crate) fn rustc_location(span: &Value) -> ToolLocation<'_>
    ensures { result ≡ rustc_location (view span.now) }
{
    ToolLocation {
        name: file_name(span),
        stretch: span_range(span),
        line: member_number(span, "line_start").unwrap_or(0),
        column: member_number(span, "column_start").unwrap_or(0),
    }
}

/// Returns whether the span is primary.
pub(crate) fn is_primary(span: &Value) -> bool
    ensures { result ≡ is_primary (view span.now) }
{
    member_flag(span, "is_primary")
}

/// Returns whether the span is an edit (`suggested_replacement`).
pub(crate) fn is_edit(span: &Value) -> bool
    ensures { result ≡ is_edit (view span.now) }
{
    member_text(span, "suggested_replacement").is_some()
}

/// Returns whether the span isn't an edit, or has a label.
fn is_annotation(span: &Value) -> bool
    ensures { result ≡ is_annotation (view span.now) }
{
    !is_edit(span) || member_nonempty_text(span, "label").is_some()
}

/// Which spans are wanted.
#[derive(Clone, Copy)]
enum SpanKind {
    Primary,
    Secondary,
    Edits,
}

impl SpanKind {
    /// Returns whether a span is wanted.
    fn takes(self, span: &Value) -> bool
        ensures { result ≡ takes self (view span.now) }
    {
        match self {
            SpanKind::Primary => is_primary(span),
            SpanKind::Secondary => !is_primary(span),
            SpanKind::Edits => is_edit(span),
        }
    }
}

/// Appends the wanted spans of a message.
fn push_spans<'v>(
    list: &mut Vec<&'v Value>,
    message: &'v Value,
    wanted: SpanKind,
) -> Result<(), AllocError>
    ensures { OnOk result (values_behind list.new.items ≡ values_behind list.old.items
        ++ filter (takes wanted) (member_objects (codes "spans") (view message.now))) }
{
    for span in member_items(message, "spans") {
        if span.is_object() && wanted.takes(span) {
            push_item(list, span)?;
        }
    }
    Ok(())
}

/// Returns the spans of a message, note or help, primary ones first.
pub(crate) fn spans_of<'v>(alloc: Global, message: &'v Value) -> Result<Vec<&'v Value>, AllocError>
    ensures { IfOk result (λ list. values_behind list.items ≡ spans_of (view message.now)) }
{
    let mut list = Vec::new(alloc);
    push_spans(&mut list, message, SpanKind::Primary)?;
    push_spans(&mut list, message, SpanKind::Secondary)?;
    Ok(list)
}

/// Returns the edits of a note or help.
pub fn edits_in_child<'v>(alloc: Global, child: &'v Value) -> Result<Vec<&'v Value>, AllocError>
    ensures { IfOk result (λ list. values_behind list.items ≡ edits_in_child (view child.now)) }
{
    let mut list = Vec::new(alloc);
    push_spans(&mut list, child, SpanKind::Edits)?;
    Ok(list)
}

/// Returns the spans that aren't edits, or have a label.
pub(crate) fn annotation_spans<'v>(
    alloc: Global,
    spans: &[&'v Value],
) -> Result<Vec<&'v Value>, AllocError>
    ensures { IfOk result (λ list. values_behind list.items ≡ filter is_annotation (values_behind spans.now)) }
{
    let mut list = Vec::new(alloc);
    for span in spans {
        let span = *span;
        if is_annotation(span) {
            push_item(&mut list, span)?;
        }
    }
    Ok(list)
}

/// Returns the macro expansion that contains the span.
pub(crate) fn expansion_of(span: &Value) -> Option<&Value>
    ensures { option_map (λ v. view v.now) result ≡ expansion_of (view span.now) }
{
    member_object(span, "expansion")
}

/// Returns the outermost expansion, at most `left` calls further out.
#[tactic(auto, unfolding(crate::specs::rules::Rustc::outermost_from))]
pub(crate) fn outermost_from(expansion: &Value, left: usize) -> &Value
    ensures { view result.now ≡ outermost_from left (view expansion.now) }
{
    if left == 0 {
        return expansion;
    }
    let Some(span) = member_object(expansion, "span") else {
        return expansion;
    };
    match expansion_of(span) {
        Some(outer) => outermost_from(outer, left - 1),
        None => expansion,
    }
}

/// Returns whether both spans are in one file, and the first contains the second.
pub(crate) fn holds_span(outer: &Value, inner: &Value) -> bool
    ensures { result ≡ holds_span (view outer.now) (view inner.now) }
{
    if file_name(outer) != file_name(inner) {
        return false;
    }
    match (span_range(outer), span_range(inner)) {
        (Some(outer), Some(inner)) => outer.holds(inner),
        _ => false,
    }
}

/// Returns whether a macro name is that of a derive.
fn is_derive(name: &str) -> bool
    ensures { result ≡ is_derive name.now }
{
    name.starts_with("#[derive(")
}

/// Returns whether a macro name is that of an attribute.
fn is_attribute(name: &str) -> bool
    ensures { result ≡ is_attribute name.now }
{
    name.starts_with("#[")
}

/// Returns whether a macro name ends with `!`.
fn is_invocation(name: &str) -> bool
    ensures { result ≡ is_invocation name.now }
{
    name.ends_with("!")
}

/// Returns rustc's text at the outermost call of a macro.
pub(crate) fn call_text(name: &str) -> Option<&'static str>
    ensures { option_copied result ≡ call_text name.now }
{
    if is_derive(name) {
        Some("in this derive macro expansion")
    } else if is_attribute(name) {
        Some("in this attribute macro expansion")
    } else if is_invocation(name) {
        Some("in this macro invocation")
    } else {
        None
    }
}
