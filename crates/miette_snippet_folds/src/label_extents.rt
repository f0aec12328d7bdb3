//! The extents of labels that may be folded, from the reads of the labels.

ghost use Rattle.std.specs.Prelude.{◌≡◌, ◌≤◌, ◌+◌, ◌-◌, length, map, max, min, unwrap_or, IfOk, if◌then◌else◌};
ghost use Rattle.miette_snippet_folds.specs.views.ReadExtents.{read_extent, read_extents, HasLines};
ghost use Rattle.miette_protocol.specs.rules.Reading.{Source};
ghost use Rattle.miette_lines.specs.rules.Lines.{line_of};
ghost use Rattle.miette_labels.specs.views.Placing.{end_drawn};
ghost use Rattle.miette_labels.specs.views.ProgramLabels.{label_at};
ghost use Rattle.miette_labels.specs.views.Reads.{IsRead};
ghost use Rattle.miette_labels.specs.rules.Contexts.{end_of_span};
ghost use Rattle.std.specs.List.{All};
ghost use Rattle.miette_snippet_folds.specs.views.ExtentIndex.{extent_view};
ghost use Rattle.miette_labels.specs.rules.Around.{has_own_context};
ghost use Rattle.miette_snippet_folds.specs.steps.LineNumbers.{IsLineIn};

use crate::extent_index::ExtentIndex;
use crate::folds::LabelExtent;
use miette_labels::groups::end_of;
use miette_labels::reading::{ReadLabel, any_own_context, default_context, label_context};
use miette_lines::find::FindLines;
use miette_lines::scan::ScanLines;
use miette_lines::sums::sum;
use miette_protocol::protocol::{LabeledSpan, SourceSpan};
use miette_protocol::source::MietteSpanContents;
use miette_snippet_rules::options::SnippetSettings;
use std::alloc::{AllocError, Global};

// Returns the number of context lines of the label at an index.
fn lines_at(context: usize, own: bool, labels: &[LabeledSpan], index: usize) -> usize
    ensures { result ≡ unwrap_or (label_at labels.now index).context (if own then max 1 context else context) }
{
    match labels.get(index) {
        Some(label) => label_context(context, own, label),
        None => default_context(context, own),
    }
}

// Returns the offset of the last byte that a label is drawn over.
fn last_byte(read: &ReadLabel<'_>) -> Result<usize, AllocError>
    ensures { IfOk result (λ last. last ≡ max read.now.span.offset (end_drawn read.now - 1)) }
{
    let start = read.span.offset();
    let end = end_of(&read.span)?
        .min(end_of(read.contents.span())?)
        .max(start);
    Ok(end.saturating_sub(1).max(start))
}

// Returns the offset after a span, which counts as at least one byte.
fn end_after(span: &SourceSpan) -> Result<usize, AllocError>
    ensures { IfOk result (λ end. end ≡ max (end_of_span span.now) (span.now.offset + 1)) }
{
    Ok(end_of(span)?.max(sum(span.offset(), 1)?))
}

// Returns the zero-based line number of an offset. Reads only the bytes before it.
fn line_of(bytes: &[u8], offset: usize) -> usize
    requires { offset ≤ length bytes.now }
    ensures { result ≡ line_of bytes.now offset }
{
    ScanLines(bytes).line_from(0, 0, offset)
}

// Returns how many of the bytes that were read come before an offset of the source.
fn bytes_before(contents: &MietteSpanContents<'_>, offset: usize) -> usize
    ensures { result ≡ min (offset - contents.now.span.offset) (length contents.now.bytes) }
{
    offset
        .saturating_sub(contents.span().offset())
        .min(contents.data().len())
}

// Returns the number of the line that is `lines` lines after the first one that was read.
fn line_after(contents: &MietteSpanContents<'_>, lines: usize) -> Result<usize, AllocError>
    ensures { IfOk result (λ line. line ≡ contents.now.line + lines) }
{
    sum(contents.line(), lines)
}

// Returns the line number of an offset, by counting lines from the front of what was read.
fn line_from_front(contents: &MietteSpanContents<'_>, offset: usize) -> Result<usize, AllocError>
    ensures { IfOk result (IsLineIn contents.now offset) }
{
    line_after(
        contents,
        line_of(contents.data(), bytes_before(contents, offset)),
    )
}

// Returns the line number of an offset, by counting lines from the end of what was read.
fn line_from_back(contents: &MietteSpanContents<'_>, offset: usize) -> Result<usize, AllocError>
    ensures { IfOk result (IsLineIn contents.now offset) }
{
    let data = contents.data();
    let at = bytes_before(contents, offset);
    let rest = &data[at..];
    let ends = line_of(rest, rest.len());
    line_after(contents, contents.line_count().saturating_sub(ends))
}

// Returns the extent of a label. Only lines near the label's ends are read.
fn label_extent(
    context: usize,
    own: bool,
    labels: &[LabeledSpan],
    read: &ReadLabel<'_>,
) -> Result<LabelExtent, AllocError>
    ensures parts { IfOk result (λ label. extent_view label ≡ read_extent context own labels.now read.now) }
    ensures lines { IfOk result (λ label. (source : Source) → IsRead context source labels.now read.now →
        HasLines source.bytes label) }
{
    let contents = &read.contents;
    let first = read.span.offset();
    let last = last_byte(read)?;
    Ok(LabelExtent {
        first,
        last,
        from: contents.span().offset(),
        until: end_after(contents.span())?,
        around: lines_at(context, own, labels, read.index),
        first_line: line_from_front(contents, first)?,
        last_line: line_from_back(contents, last)?,
        from_line: contents.line(),
    })
}

// Returns the extents of all labels, in order.
fn all_extents(
    alloc: Global,
    context: usize,
    labels: &[LabeledSpan],
    reads: &[ReadLabel<'_>],
) -> Result<Vec<LabelExtent>, AllocError>
    ensures parts { IfOk result (λ label_extents. map extent_view label_extents.items
        ≡ map (read_extent context (has_own_context labels.now) labels.now) reads.now) }
    ensures lines { IfOk result (λ label_extents. (source : Source) → All (IsRead context source labels.now) reads.now →
        All (HasLines source.bytes) label_extents.items) }
{
    let own = any_own_context(labels);
    let mut label_extents = Vec::with_capacity(alloc, reads.len())?;
    for read in reads {
        label_extents.push(label_extent(context, own, labels, read)?)?;
    }
    Ok(label_extents)
}

// Returns the extents of all labels, in order, or none if labels aren't folded.
fn extent_list(
    settings: &SnippetSettings<'_>,
    labels: &[LabeledSpan],
    reads: &[ReadLabel<'_>],
) -> Result<Vec<LabelExtent>, AllocError>
    ensures parts { IfOk result (λ label_extents. map extent_view label_extents.items
        ≡ read_extents settings.now.layout.now.label_lines settings.now.layout.now.context_lines labels.now reads.now) }
    ensures lines { IfOk result (λ label_extents. (source : Source) →
        All (IsRead settings.now.layout.now.context_lines source labels.now) reads.now →
        All (HasLines source.bytes) label_extents.items) }
{
    match settings.layout.label_lines {
        Some(_) => all_extents(settings.alloc, settings.layout.context_lines, labels, reads),
        None => Ok(Vec::new(settings.alloc)),
    }
}

/// Returns the extents of all labels, in order, or none if labels aren't folded. `AllocError` if allocation fails, or
/// if a line number or the end of a span exceeds `usize::MAX`.
pub fn label_extents(
    settings: &SnippetSettings<'_>,
    labels: &[LabeledSpan],
    reads: &[ReadLabel<'_>],
) -> Result<ExtentIndex, AllocError>
    ensures parts { IfOk result (λ label_extents. map extent_view label_extents
        ≡ read_extents settings.now.layout.now.label_lines settings.now.layout.now.context_lines labels.now reads.now) }
    ensures lines { IfOk result (λ label_extents. (source : Source) →
        All (IsRead settings.now.layout.now.context_lines source labels.now) reads.now →
        All (HasLines source.bytes) label_extents) }
{
    let all = extent_list(settings, labels, reads)?;
    ExtentIndex::new(settings.alloc, all)
}
