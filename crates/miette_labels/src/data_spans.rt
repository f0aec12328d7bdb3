//! The spans of the data that labels' reads returned, and how they are merged.

ghost use Rattle.std.specs.Prelude.{◌≡◌, map, IfOk};
ghost use Rattle.miette_labels.specs.rules.Groups.{by_begin, merged_data_spans};

use crate::reading::ReadLabel;
use crate::spans::{end_of, join};
use miette_protocol::protocol::SourceSpan;
use std::alloc::{AllocError, Global};
use std::mem;

// Returns the spans of the data of the reads.
fn data_spans(alloc: Global, reads: &[ReadLabel<'_>]) -> Result<Vec<SourceSpan>, AllocError>
    ensures { IfOk result (λ v. v.items ≡ map (λ read. read.contents.span) reads.now) }
{
    let mut spans = Vec::with_capacity(alloc, reads.len())?;
    for read in reads {
        spans.push(*read.contents.span())?;
    }
    Ok(spans)
}

/// Returns the spans of the data of the reads, sorted by offset.
pub(crate) fn data_spans_by_start(
    alloc: Global,
    reads: &[ReadLabel<'_>],
) -> Result<Vec<SourceSpan>, AllocError>
    ensures { IfOk result (λ v. v.items ≡ by_begin (map (λ read. read.contents.span) reads.now)) }
{
    let mut spans = data_spans(alloc, reads)?;
    spans.sort_by_key(|span| span.offset())?;
    Ok(spans)
}

/// Merges spans that are sorted by offset: each joins the previous one if it begins at or before its end.
pub(crate) fn merge_spans(
    alloc: Global,
    spans: &[SourceSpan],
) -> Result<Vec<SourceSpan>, AllocError>
    ensures { IfOk result (λ v. v.items ≡ merged_data_spans spans.now) }
{
    let mut done = Vec::new(alloc);
    let Some((first, rest)) = spans.split_first() else {
        return Ok(done);
    };
    let mut before = *first;
    for span in rest {
        if span.offset() <= end_of(&before)? {
            before = join(&before, span)?;
        } else {
            done.push(mem::replace(&mut before, *span))?;
        }
    }
    done.push(before)?;
    Ok(done)
}
