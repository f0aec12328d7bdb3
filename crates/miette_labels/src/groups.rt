//! Groups labels into snippets.

ghost use Rattle.std.specs.Prelude.{◌≡◌, ◌≢◌, ◌+◌, nat_le, true, false, [], map, IfOk, MatchOption};
ghost use Rattle.std.specs.List.{All};
ghost use Rattle.std.specs.Option.{option_map};
ghost use Rattle.miette_protocol.specs.rules.Reading.{IsInBounds};
ghost use Rattle.miette_labels.specs.rules.Groups.{in_order, joined_span, joins_before, by_begin};
ghost use Rattle.miette_labels.specs.rules.Groups.{merged_data_spans};
ghost use Rattle.miette_labels.specs.views.ProgramLabels.{label_at};
ghost use Rattle.miette_labels.specs.views.Reads.{AreContents, IsRead, IsGroupsResult};
ghost use Rattle.miette_labels.specs.steps.Reads.{AreJoined};

use crate::data_spans;
use crate::reading::{ReadLabel, any_own_context};
pub use crate::spans::{end_of, join};
use miette_protocol::protocol::{LabeledSpan, SourceSpan};
use miette_protocol::source::{KnownLines, MietteSpanContents, START, SourceCode};
use std::alloc::{AllocError, Global};
use std::mem;

/// The labels of one snippet: the span that was read for them, and the contents of that read.
#[derive(Debug, Drop)]
pub struct LabelGroup<'a> {
    /// The span that was read, in bytes of the source.
    pub span: SourceSpan,
    /// The contents of the read.
    pub contents: MietteSpanContents<'a>,
}

// Whether the context of a label begins at most one line after the data of a group.
fn touches(before: &MietteSpanContents<'_>, label: &MietteSpanContents<'_>) -> bool
    ensures { result ≡ nat_le label.now.line (before.now.line + before.now.line_count) }
{
    label.line().saturating_sub(before.line()) <= before.line_count()
}

// Returns the group extended by a label, if the label joins it and the joined span can be read. A source without an
// index scans only the lines of the label.
fn extend_group<'a, S: SourceCode>(
    source: &'a S,
    context: usize,
    before: &LabelGroup<'a>,
    label: &ReadLabel<'a>,
) -> Result<Option<LabelGroup<'a>>, AllocError>
    requires before { AreContents context (S.source source.now) before.now.span before.now.contents }
    requires label { AreContents context (S.source source.now) label.now.span label.now.contents }
    ensures { IfOk result (λ r. MatchOption r
        (joins_before context (S.source source.now) before.now.span label.now.span ≡ true →
        (S.source source.now).always_reads ≡ false)
        (λ group. (joins_before context (S.source source.now) before.now.span label.now.span ≡ true)
        × (group.span ≡ joined_span before.now.span label.now.span)
        × AreContents context (S.source source.now) group.span group.contents)) }
{
    if !touches(&before.contents, &label.contents) {
        return Ok(None);
    }
    let span = join(&before.span, &label.span)?;
    let first = before.contents.begin();
    let last = label.contents.begin();
    match source.read_span_near(KnownLines { first, last }, &span, context, context) {
        Ok(contents) => Ok(Some(LabelGroup { span, contents })),
        Err(_) => Ok(None),
    }
}

// Groups labels that are sorted by offset and were all read with `context` lines of context. A label joins the previous
// group if their lines touch. That group is read again; if the read fails, the two stay separate.
fn joined_groups<'a, S: SourceCode>(
    alloc: Global,
    source: &'a S,
    context: usize,
    labels: &[ReadLabel<'a>],
) -> Result<Vec<LabelGroup<'a>>, AllocError>
    requires { All (λ label. AreContents context (S.source source.now) label.span label.contents) labels.now }
    ensures { IfOk result (λ groups. AreJoined context (S.source source.now) (map (λ label. label.span) labels.now)
        groups.items) }
{
    let mut done = Vec::new(alloc);
    let Some((first, rest)) = labels.split_first() else {
        return Ok(done);
    };
    let mut before = own_group(first)?;
    for label in rest {
        match extend_group(source, context, &before, label)? {
            Some(group) => before = group,
            None => done.push(mem::replace(&mut before, own_group(label)?))?,
        }
    }
    done.push(before)?;
    Ok(done)
}

// Makes a group of a single label.
fn own_group<'a>(label: &ReadLabel<'a>) -> Result<LabelGroup<'a>, AllocError>
    ensures span { IfOk result (λ group. group.span ≡ label.now.span) }
    ensures contents { IfOk result (λ group. group.contents ≡ label.now.contents) }
{
    Ok(LabelGroup {
        span: label.span,
        contents: label.contents.clone()?,
    })
}

// Reads each span without context. Returns `None` if a read fails.
fn read_all<'a, S: SourceCode>(
    alloc: Global,
    source: &'a S,
    spans: &[SourceSpan],
) -> Result<Option<Vec<LabelGroup<'a>>>, AllocError>
    requires { All (λ span. IsInBounds (S.source source.now).bytes span) spans.now }
    ensures { IfOk result (λ r. MatchOption r (((S.source source.now).always_reads ≡ false) × (spans.now ≢ []))
        (λ groups. (map (λ group. group.span) groups.items ≡ spans.now)
        × All (λ group. AreContents 0 (S.source source.now) group.span group.contents) groups.items)) }
{
    let mut groups = Vec::with_capacity(alloc, spans.len())?;
    let mut known = START;
    for span in spans {
        match source.read_span_near(known, span, 0, 0) {
            Ok(contents) => {
                known = contents.known();
                groups.push(LabelGroup {
                    span: *span,
                    contents,
                })?
            }
            Err(_) => return Ok(None),
        }
    }
    Ok(Some(groups))
}

// Groups labels by where the bytes of their contents begin. A label joins the previous group if they begin at or before
// that group's end. The bytes of each group are read again. Returns `None` if a read fails.
fn own_groups<'a, S: SourceCode>(
    alloc: Global,
    source: &'a S,
    reads: &[ReadLabel<'_>],
) -> Result<Option<Vec<LabelGroup<'a>>>, AllocError>
    requires { All (λ read. IsInBounds (S.source source.now).bytes read.contents.span) reads.now }
    ensures { IfOk result (λ r. MatchOption r
        (((S.source source.now).always_reads ≡ false)
        × (merged_data_spans (by_begin (map (λ read. read.contents.span) reads.now)) ≢ []))
        (λ groups. (map (λ group. group.span) groups.items
        ≡ merged_data_spans (by_begin (map (λ read. read.contents.span) reads.now)))
        × All (λ group. AreContents 0 (S.source source.now) group.span group.contents) groups.items)) }
{
    let spans = data_spans::data_spans_by_start(alloc, reads)?;
    let spans = data_spans::merge_spans(alloc, &spans)?;
    read_all(alloc, source, &spans)
}

/// Groups labels that are sorted by offset. Returns `None` if the read of a group fails.
///
/// A label joins the previous group if their lines touch. That group is read again; if the read fails, the two stay
/// separate.
///
/// If a label has its own number of context lines, labels are joined by where the data of their reads begin. The bytes
/// of each group are then read again without context.
///
/// # Errors
/// `AllocError` if allocation fails, or if a span ends after `usize::MAX`.
pub fn groups<'a, S: SourceCode>(
    alloc: Global,
    source: &'a S,
    context: usize,
    labels: &[LabeledSpan],
    reads: &[ReadLabel<'a>],
) -> Result<Option<Vec<LabelGroup<'a>>>, AllocError>
    requires order { map (λ read. label_at labels.now read.index) reads.now ≡ in_order labels.now }
    requires each { All (IsRead context (S.source source.now) labels.now) reads.now }
    ensures { IfOk result (λ groups. IsGroupsResult context (S.source source.now) (in_order labels.now)
        (option_map (λ v. v.items) groups)) }
{
    if any_own_context(labels) {
        let groups = own_groups(alloc, source, reads)?;
        return Ok(groups);
    }
    let groups = joined_groups(alloc, source, context, reads)?;
    Ok(Some(groups))
}
