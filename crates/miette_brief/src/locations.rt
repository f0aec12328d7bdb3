//! Locations of the parts of a report, read from its sources without context.

ghost use Rattle.std.specs.Prelude.{◌≡◌, ◌<◌, ◌+◌, ◌&&◌, false, Some, None, IfOk, OnOk, map, length};
ghost use Rattle.miette_tree.specs.views.Owned.{ref_source, opt_ref_source};
ghost use Rattle.miette_brief.specs.rules.Rows.{no_location};
ghost use Rattle.miette_brief.specs.rules.Locations.{label_location as place_of_label};
ghost use Rattle.std.specs.List.{All};
ghost use Rattle.miette_tree.specs.rules.Reads.{accepts, further_pass};
ghost use Rattle.miette_tree.specs.views.Attachments.{section_of};
ghost use Rattle.miette_brief.specs.steps.Reads.{AreKnown, IsRefusedRead, IsReadAt, IsNameLocation};
ghost use Rattle.miette_brief.specs.steps.Reads.{IsDiagnosticLocation};
ghost use Rattle.miette_brief.specs.steps.Reads.{IsSourceLocation, IsCauseLocation};
ghost use Rattle.miette_brief.specs.rules.Locations.{span_location as begin_of_span, primary_span as primary_of};
ghost use Rattle.miette_labels.specs.rules.Groups.{in_order};
ghost use Rattle.miette_protocol.specs.rules.Reading.{IsInBounds};
ghost use Rattle.miette_labels.specs.views.Turns.{ordered_labels};
ghost use Rattle.miette_brief.specs.steps.Conversions.{brief_location_of};

use crate::primary::{PrimaryRead, read_begin, read_primary, read_primary_of};
use crate::rows::BriefLocation;
use miette_labels::order::OrderedLabel;
use miette_protocol::error::RenderError;
use miette_protocol::protocol::{LabeledSpan, SourceOffset, SourceSpan};
use miette_protocol::source::{KnownLines, SourceCode};
use miette_tree::report::{Snippets, SourceRef};
use std::alloc::{AllocError, Global};

/// A location without name and position.
fn no_location() -> BriefLocation<'static>
    ensures { brief_location_of result ≡ no_location }
{
    BriefLocation {
        name: None,
        position: None,
    }
}

/// Returns the location at which a span begins, or `Refused` if its read is refused. `known` is a hint where to start
/// counting lines.
fn span_location<'a, S: SourceCode>(
    source: SourceRef<'a, S>,
    span: &SourceSpan,
    known: &mut KnownLines,
) -> Result<BriefLocation<'a>, RenderError>
    requires { AreKnown (Some (ref_source S.source source)) known.old }
    ensures known { AreKnown (Some (ref_source S.source source.entry)) known.new }
    ensures place { IfOk result (λ at. brief_location_of at ≡ begin_of_span (ref_source S.source source.entry) span.now) }
    ensures accepted { OnOk result (IsInBounds (ref_source S.source source.entry).bytes span.now) }
    ensures refused { (result ≡ Err RenderError.Refused) →
        IsRefusedRead (Some (ref_source S.source source.entry)) span.now }
{
    match read_begin(source, span, known)? {
        Some(at) => Ok(at),
        None => Err(RenderError::Refused),
    }
}

/// Returns the location at which a label's span begins, or an empty one without a source. Returns `Refused` if its read
/// is refused. `known` is a hint where to start counting lines, and moves to the span's begin.
pub(crate) fn label_location<'a, S: SourceCode>(
    source: Option<SourceRef<'a, S>>,
    span: &SourceSpan,
    known: &mut KnownLines,
) -> Result<BriefLocation<'a>, RenderError>
    requires { AreKnown (opt_ref_source S.source source) known.old }
    ensures known { AreKnown (opt_ref_source S.source source.entry) known.new }
    ensures place { IfOk result (λ at. brief_location_of at ≡ place_of_label (opt_ref_source S.source source.entry)
        span.now) }
    ensures accepted { OnOk result (IsReadAt (opt_ref_source S.source source.entry) span.now) }
    ensures refused { (result ≡ Err RenderError.Refused) → IsRefusedRead (opt_ref_source S.source source.entry) span.now }
{
    match source {
        Some(source) => span_location(source, span, known),
        None => Ok(no_location()),
    }
}

/// Returns the name of a source, from a read of the empty span at offset 0. It is `None` if that read is refused.
fn name_location<'a, S: SourceCode>(source: SourceRef<'a, S>) -> BriefLocation<'a>
    ensures { IsNameLocation (ref_source S.source source.entry) (brief_location_of result) }
{
    let begin = SourceSpan::new(SourceOffset::from(0), 0);
    match source.read_span(&begin, 0, 0) {
        Ok(contents) => BriefLocation {
            name: contents.name(),
            position: None,
        },
        Err(_) => no_location(),
    }
}

/// Returns the name of a source, or an empty location without one.
pub(crate) fn source_location<'a, S: SourceCode>(
    source: Option<SourceRef<'a, S>>,
) -> BriefLocation<'a>
    ensures { IsSourceLocation (opt_ref_source S.source source.entry) (brief_location_of result) }
{
    match source {
        Some(source) => name_location(source),
        None => no_location(),
    }
}

/// Returns the location of a diagnostic with labels in this order and these further sources. Returns `Refused` if its
/// primary label can't be read.
pub(crate) fn diagnostic_location<'a, S: SourceCode>(
    alloc: Global,
    source: Option<SourceRef<'a, S>>,
    labels: &[LabeledSpan],
    order: &[OrderedLabel],
    further: &'a [Snippets<S>],
) -> Result<BriefLocation<'a>, RenderError>
    requires inside { All (λ turn. turn.index < length labels.now) order.now }
    ensures place { IfOk result (λ at. IsDiagnosticLocation (opt_ref_source S.source source.entry)
        (ordered_labels labels.now order.now) (map (section_of S.source) further.now) (brief_location_of at)) }
    ensures refused { (result ≡ Err RenderError.Refused) → (accepts (opt_ref_source S.source source.entry)
        (ordered_labels labels.now order.now) && further_pass accepts (map (section_of S.source) further.now)) ≡ false }
{
    match read_primary(alloc, source, labels, order, further)? {
        PrimaryRead::At(at) => Ok(at),
        PrimaryRead::Unread => Err(RenderError::Refused),
        PrimaryRead::Nothing => Ok(source_location(source)),
    }
}

/// Returns the location of a cause: that of its primary label if it can be read, else `at`.
pub(crate) fn cause_location<'a, S: SourceCode>(
    alloc: Global,
    source: Option<SourceRef<'a, S>>,
    labels: &[LabeledSpan],
    further: &'a [Snippets<S>],
    at: BriefLocation<'a>,
) -> Result<BriefLocation<'a>, AllocError>
    ensures { IfOk result (λ own. IsCauseLocation (brief_location_of at.entry)
        (primary_of (opt_ref_source S.source source.entry) (in_order labels.now)
        (map (section_of S.source) further.now)) (brief_location_of own)) }
{
    match read_primary_of(alloc, source, labels, further)? {
        PrimaryRead::At(own) => Ok(own),
        PrimaryRead::Unread => Ok(at),
        PrimaryRead::Nothing => Ok(at),
    }
}
