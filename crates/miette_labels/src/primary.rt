//! The location that a snippet's frame shows.

ghost use Rattle.std.specs.Prelude.{◌≡◌, None, IfOk};
ghost use Rattle.std.specs.List.Sorted.{IsNonDecreasingBy};
ghost use Rattle.miette_lines.specs.views.Known.{IsKnown};
ghost use Rattle.miette_labels.specs.views.Primary.{chosen_label, end_within as end_of_label, PointsTo};

use crate::reading::ReadLabel;
use crate::spans::end_of;
use miette_protocol::protocol::SourceSpan;
use miette_protocol::source::{KnownLines, SourceCode};
use std::alloc::AllocError;

/// Where the primary label of a snippet begins.
#[derive(Clone, Copy, Debug, PartialEq, Eq)]
pub enum Place {
    /// The snippet has no label within its span.
    Nowhere,
    /// The zero-based line and column.
    At(usize, usize),
    /// The label could not be read.
    Unread,
}

impl Place {
    ghost use Rattle.miette_labels.specs.views.Primary.{begins_of, is_unread};

    /// Returns the line and the column, if there are any.
    pub fn begins(self) -> Option<(usize, usize)>
        ensures { result ≡ begins_of self }
    {
        match self {
            Place::At(line, column) => Some((line, column)),
            Place::Nowhere | Place::Unread => None,
        }
    }

    /// Whether the read failed.
    pub fn is_unread(self) -> bool
        ensures { result ≡ is_unread self }
    {
        match self {
            Place::Unread => true,
            Place::Nowhere | Place::At(_, _) => false,
        }
    }
}

// Returns the end that must be within the group: the label's end, or its start if labels have their own context lines.
fn end_within(own: bool, span: &SourceSpan) -> Result<usize, AllocError>
    ensures { IfOk result (λ end. end ≡ end_of_label own span.now) }
{
    if own {
        return Ok(span.offset());
    }
    end_of(span)
}

// Returns the first primary label of a group, or else its first label.
fn primary(
    own: bool,
    span: &SourceSpan,
    reads: &[ReadLabel<'_>],
) -> Result<Option<SourceSpan>, AllocError>
    ensures { IfOk result (λ r. r ≡ chosen_label own span.now None reads.now) }
{
    let start = span.offset();
    let end = end_of(span)?;
    let mut first = None;
    for read in reads {
        if start <= read.span.offset() && end_within(own, &read.span)? <= end {
            if read.primary {
                return Ok(Some(read.span));
            }
            if first.is_none() {
                first = Some(read.span);
            }
        }
    }
    Ok(first)
}

// Returns the labels that begin within a span or at its end, by binary search. The labels are sorted by offset. The
// primary label of the span is among them.
pub fn reads_in_span<'r, 'a>(
    own: bool,
    span: &SourceSpan,
    reads: &'r [ReadLabel<'a>],
) -> Result<&'r [ReadLabel<'a>], AllocError>
    requires { IsNonDecreasingBy (λ read. read.span.offset) reads.now }
    ensures { IfOk result (λ near. chosen_label own span.now None near.now ≡ chosen_label own span.now None reads.now) }
{
    let start = span.offset();
    let end = end_of(span)?;
    let first = reads.partition_point(|read| read.span.offset() < start);
    let after = reads.partition_point(|read| read.span.offset() <= end);
    Ok(&reads[first.min(after)..after])
}

/// Returns where the primary label of a group begins, by a read without context. A label belongs to the group if its
/// span is within the group's span. If labels have their `own` context lines, it belongs to the group if it begins
/// within the group's bytes or at their end. `known` are offsets near the group whose lines are known.
///
/// # Errors
/// `AllocError` if the span of the group or of a label ends after `usize::MAX`. A read that fails isn't an error; the
/// result is then `Unread`.
pub fn primary_location_of<S: SourceCode>(
    source: &S,
    own: bool,
    known: KnownLines,
    span: &SourceSpan,
    reads: &[ReadLabel<'_>],
) -> Result<Place, AllocError>
    requires first { IsKnown (S.source source.now).bytes known.first }
    requires last { IsKnown (S.source source.now).bytes known.last }
    ensures { IfOk result (λ place. PointsTo (S.source source.now) (chosen_label own span.now None reads.now) place) }
{
    let Some(label) = primary(own, span, reads)? else {
        return Ok(Place::Nowhere);
    };
    match source.read_span_near(known, &label, 0, 0) {
        Ok(contents) => Ok(Place::At(contents.line(), contents.column())),
        Err(_) => Ok(Place::Unread),
    }
}
