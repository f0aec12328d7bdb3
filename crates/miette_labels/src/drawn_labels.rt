//! Prepares labels for drawing.

ghost use Rattle.std.specs.Prelude.{option_copied, ◌≡◌, map, IfOk};
ghost use Rattle.miette_labels.specs.rules.Labels.{style_at};
ghost use Rattle.miette_labels.specs.views.ProgramLabels.{label_text_at};
ghost use Rattle.miette_labels.specs.views.Placing.{placement_of, placements_from, place_label, end_drawn};
ghost use Rattle.miette_labels.specs.views.Placing.{begins_at_end};
ghost use Rattle.miette_labels.specs.views.Placing.{reads_before, source_end_from_reads};

use crate::placed::PlacedLabel;
use crate::reading::ReadLabel;
use crate::spans::end_of;
use miette_protocol::protocol::LabeledSpan;
use miette_style::style::Style;
use std::alloc::{AllocError, Global};

// Returns the style of the i-th label, sorted by offset. It is plain if there are no styles.
fn style_of(styles: &[Style], i: usize) -> Style
    ensures { result ≡ style_at styles.now i }
{
    if styles.is_empty() {
        Style::new()
    } else {
        styles[i % styles.len()]
    }
}

// Returns where a drawn label ends: at its own end, or at the end of its read's contents if that is earlier. No read
// says where the source ends, but the contents of a label's read reach the label's end or the source's end.
fn drawn_end(read: &ReadLabel<'_>) -> Result<usize, AllocError>
    ensures { IfOk result (λ end. end ≡ end_drawn read.now) }
{
    let end = end_of(&read.span)?.min(end_of(read.contents.span())?);
    Ok(end.max(read.span.offset()))
}

// Whether the contents of a read have bytes before its label and none from there on.
fn reads_before(read: &ReadLabel<'_>) -> Result<bool, AllocError>
    ensures { IfOk result (λ before. before ≡ reads_before read.now) }
{
    let span = read.contents.span();
    let offset = read.span.offset();
    let end = end_of(span)?;
    Ok(span.offset() < offset && end == offset)
}

/// Returns the end of the source, if the reads reveal it. They do if a label is read with a line of context, and the
/// contents end where the label begins: the label is then at the end of the source. Returns `AllocError` if the span of
/// a read ends after `usize::MAX`.
pub fn source_end_from_reads(reads: &[ReadLabel<'_>]) -> Result<Option<usize>, AllocError>
    ensures { IfOk result (λ end. end ≡ source_end_from_reads reads.now) }
{
    for read in reads {
        if reads_before(read)? {
            return Ok(Some(read.span.offset()));
        }
    }
    Ok(None)
}

// Whether a label begins at the known end of the source.
fn begins_at_end(end: Option<usize>, offset: usize) -> bool
    ensures { result ≡ begins_at_end end offset }
{
    match end {
        Some(end) => offset == end,
        None => false,
    }
}

// Returns the text of the label with this zero-based index.
fn text_of<'a>(labels: &'a [LabeledSpan], index: usize) -> Option<&'a str>
    ensures { option_copied result ≡ label_text_at labels.now index }
{
    match labels.get(index) {
        Some(label) => label.label(),
        None => None,
    }
}

// Prepares one label, with the style of the i-th one.
fn place_label<'a>(
    end: Option<usize>,
    styles: &[Style],
    i: usize,
    labels: &'a [LabeledSpan],
    read: &ReadLabel<'_>,
) -> Result<PlacedLabel<'a>, AllocError>
    ensures { IfOk result (λ placed. placement_of placed ≡ place_label end styles.now i labels.now read.now) }
{
    let offset = read.span.offset();
    let after_text = begins_at_end(end, offset);
    let before = offset.saturating_sub(1);
    let drawn = drawn_end(read)?;
    let (start, after) = if after_text {
        (before, before)
    } else {
        (offset, drawn)
    };
    Ok(PlacedLabel {
        start,
        after,
        style: style_of(styles, i),
        text: text_of(labels, read.index),
        after_text,
    })
}

/// Prepares the labels that were read for drawing, in the order of their reads. Each gets its text, and the style of
/// its position in that order. A label at the known end of the source becomes an empty one after the text of the last
/// line, at that line's last byte. Returns `AllocError` if allocation fails, or if the span of a label or of its read
/// ends after `usize::MAX`.
pub fn place_labels<'a>(
    alloc: Global,
    styles: &[Style],
    end: Option<usize>,
    labels: &'a [LabeledSpan],
    reads: &[ReadLabel<'_>],
) -> Result<Vec<PlacedLabel<'a>>, AllocError>
    ensures { IfOk result (λ placed. map placement_of placed.items ≡ placements_from end styles.now 0 labels.now
        reads.now) }
{
    let mut placed = Vec::with_capacity(alloc, reads.len())?;
    for (i, read) in reads.iter().enumerate() {
        placed.push(place_label(end, styles, i, labels, read)?)?;
    }
    Ok(placed)
}
