//! The primary label of a diagnostic, among its labels over all sources.

ghost use Rattle.std.specs.Prelude.{◌≡◌, ◌<◌, ◌+◌, Some, IfOk, map, length, option_map};
ghost use Rattle.std.specs.List.{All};
ghost use Rattle.miette_tree.specs.views.Attachments.{section_of};
ghost use Rattle.miette_tree.specs.views.Owned.{ref_source, opt_ref_source};
ghost use Rattle.miette_labels.specs.rules.Groups.{in_order};
ghost use Rattle.miette_labels.specs.views.ProgramLabels.{label_at};
ghost use Rattle.miette_labels.specs.views.Turns.{ordered_labels};
ghost use Rattle.miette_brief.specs.rules.Locations.{marked_in, first_in, span_in_source, else_span, found_further};
ghost use Rattle.miette_brief.specs.rules.Locations.{primary_span as primary_of};
ghost use Rattle.miette_brief.specs.steps.Conversions.{chosen_in, brief_location_of};
ghost use Rattle.miette_brief.specs.steps.Reads.{AreKnown, IsBegin, IsPrimaryRead};
ghost use Rattle.miette_protocol.specs.rules.Outcome.{Answers};

use crate::fix_its::LineColumn;
use crate::rows::BriefLocation;
use miette_labels::order::{OrderedLabel, order_by_offset};
use miette_lines::sums::sum;
use miette_protocol::protocol::{LabeledSpan, SourceSpan};
use miette_protocol::source::{KnownLines, MietteSpanContents, ReadResult, START, SourceCode};
use miette_tree::report::{Snippets, SourceRef};
use std::alloc::{AllocError, Global};

/// The result of reading the primary label: there is no such label, it can't be read, or its location.
#[derive(Clone, Copy)]
pub(crate) enum PrimaryRead<'a> {
    Nothing,
    Unread,
    At(BriefLocation<'a>),
}

impl<'a> PrimaryRead<'a> {
    ghost use Rattle.miette_brief.specs.steps.Conversions.{is_label as is_label_of};

    /// Whether there is a primary label.
    fn is_label(&self) -> bool
        ensures { result ≡ is_label_of self.now }
    {
        match self {
            PrimaryRead::Nothing => false,
            PrimaryRead::Unread => true,
            PrimaryRead::At(_) => true,
        }
    }
}

/// The rule that picks a source's candidate for the primary label: the first label marked as primary, or the first
/// label, both by offset.
#[derive(Clone, Copy)]
enum LabelChoice {
    Marked,
    First,
}

/// Location at which contents begin.
fn begin_of<'a>(contents: &MietteSpanContents<'a>) -> Result<BriefLocation<'a>, AllocError>
    ensures { IfOk result (λ at. brief_location_of at ≡ record {
      name = contents.now.name;
      position = Some (record { line = contents.now.line + 1; column = contents.now.column + 1 });
    }) }
{
    let line = sum(contents.line(), 1)?;
    let column = sum(contents.column(), 1)?;
    Ok(BriefLocation {
        name: contents.name(),
        position: Some(LineColumn { line, column }),
    })
}

/// Reads a span without context. `known` is a hint where to start counting lines, and moves to the span's begin.
fn read_near<'a, S: SourceCode>(
    source: SourceRef<'a, S>,
    span: &SourceSpan,
    known: &mut KnownLines,
) -> ReadResult<'a>
    requires { AreKnown (Some (ref_source S.source source)) known.old }
    ensures answers { Answers (ref_source S.source source.entry) span.now 0 0 result }
    ensures known { AreKnown (Some (ref_source S.source source.entry)) known.new }
{
    match source.read_span_near(*known, span, 0, 0) {
        Ok(contents) => {
            let begin = contents.known();
            *known = begin;
            Ok(contents)
        }
        Err(error) => Err(error),
    }
}

/// Returns the location at which a span begins, or `None` if its read is refused. `known` is a hint where to start
/// counting lines, and moves to the span's begin.
pub(crate) fn read_begin<'a, S: SourceCode>(
    source: SourceRef<'a, S>,
    span: &SourceSpan,
    known: &mut KnownLines,
) -> Result<Option<BriefLocation<'a>>, AllocError>
    requires { AreKnown (Some (ref_source S.source source)) known.old }
    ensures begin { IfOk result (λ at. IsBegin (ref_source S.source source.entry) span.now
        (option_map brief_location_of at)) }
    ensures known { AreKnown (Some (ref_source S.source source.entry)) known.new }
{
    match read_near(source, span, known) {
        Ok(contents) => Ok(Some(begin_of(&contents)?)),
        Err(_) => Ok(None),
    }
}

/// Reads the location of a span.
fn read_span_begin<'a, S: SourceCode>(
    source: SourceRef<'a, S>,
    span: &SourceSpan,
) -> Result<PrimaryRead<'a>, AllocError>
    ensures { IfOk result (λ found.
        IsPrimaryRead (Some (record { source = ref_source S.source source.entry; span = span.now })) found) }
{
    let mut known = START;
    match read_begin(source, span, &mut known)? {
        Some(at) => Ok(PrimaryRead::At(at)),
        None => Ok(PrimaryRead::Unread),
    }
}

/// The label at an entry of an order.
pub(crate) fn label_of(labels: &[LabeledSpan], turn: OrderedLabel) -> &LabeledSpan
    requires inside { turn.index < length labels.now }
    ensures { result.now ≡ label_at labels.now turn.index }
{
    &labels[turn.index]
}

/// Span of the first label that is marked as primary, in this order.
fn marked_span(labels: &[LabeledSpan], order: &[OrderedLabel]) -> Option<SourceSpan>
    requires inside { All (λ turn. turn.index < length labels.now) order.now }
    ensures { result ≡ marked_in (ordered_labels labels.now order.now) }
{
    for turn in order {
        let label = label_of(labels, *turn);
        if label.primary() {
            return Some(*label.inner());
        }
    }
    None
}

/// Span of the first label in this order.
fn first_span(labels: &[LabeledSpan], order: &[OrderedLabel]) -> Option<SourceSpan>
    requires inside { All (λ turn. turn.index < length labels.now) order.now }
    ensures { result ≡ first_in (ordered_labels labels.now order.now) }
{
    if order.is_empty() {
        return None;
    }
    Some(span_of(labels, order[0]))
}

/// Span of the label at an entry of an order.
fn span_of(labels: &[LabeledSpan], turn: OrderedLabel) -> SourceSpan
    requires inside { turn.index < length labels.now }
    ensures { result ≡ (label_at labels.now turn.index).span }
{
    *label_of(labels, turn).inner()
}

/// Reads the location of a span in a source, if there are both.
fn read_over<'a, S: SourceCode>(
    source: Option<SourceRef<'a, S>>,
    span: Option<SourceSpan>,
) -> Result<PrimaryRead<'a>, AllocError>
    ensures { IfOk result (λ found. IsPrimaryRead (span_in_source (opt_ref_source S.source source.entry) span) found) }
{
    let Some(source) = source else {
        return Ok(PrimaryRead::Nothing);
    };
    let Some(span) = span else {
        return Ok(PrimaryRead::Nothing);
    };
    read_span_begin(source, &span)
}

/// Span of the label that the rule picks, in this order.
fn chosen_span(
    choice: LabelChoice,
    labels: &[LabeledSpan],
    order: &[OrderedLabel],
) -> Option<SourceSpan>
    requires inside { All (λ turn. turn.index < length labels.now) order.now }
    ensures { result ≡ chosen_in choice (ordered_labels labels.now order.now) }
{
    match choice {
        LabelChoice::Marked => marked_span(labels, order),
        LabelChoice::First => first_span(labels, order),
    }
}

/// Span of the label that the rule picks, by offset.
fn chosen_label(
    alloc: Global,
    choice: LabelChoice,
    labels: &[LabeledSpan],
) -> Result<Option<SourceSpan>, AllocError>
    ensures { IfOk result (λ span. span ≡ chosen_in choice (in_order labels.now)) }
{
    let order = order_by_offset(alloc, labels)?;
    Ok(chosen_span(choice, labels, &order))
}

/// Reads the label that the rule picks, in the first further source that has one.
fn read_chosen_further<'a, S: SourceCode>(
    alloc: Global,
    choice: LabelChoice,
    further: &'a [Snippets<S>],
) -> Result<PrimaryRead<'a>, AllocError>
    ensures { IfOk result (λ found.
        IsPrimaryRead (found_further (chosen_in choice) (map (section_of S.source) further.now)) found) }
{
    for section in further {
        if let Some(span) = chosen_label(alloc, choice, section.labels())? {
            let found = read_span_begin(section.source(), &span)?;
            return Ok(found);
        }
    }
    Ok(PrimaryRead::Nothing)
}

/// Reads the label that the rule picks: `own` in the first source if there is one, else a label of a further source.
fn read_chosen<'a, S: SourceCode>(
    alloc: Global,
    choice: LabelChoice,
    source: Option<SourceRef<'a, S>>,
    own: Option<SourceSpan>,
    further: &'a [Snippets<S>],
) -> Result<PrimaryRead<'a>, AllocError>
    ensures { IfOk result (λ found. IsPrimaryRead (else_span (span_in_source (opt_ref_source S.source source.entry) own)
        (found_further (chosen_in choice) (map (section_of S.source) further.now))) found) }
{
    let found = read_over(source, own)?;
    if found.is_label() {
        return Ok(found);
    }
    read_chosen_further(alloc, choice, further)
}

/// Reads the primary label. The labels of the first source come in this order.
pub(crate) fn read_primary<'a, S: SourceCode>(
    alloc: Global,
    source: Option<SourceRef<'a, S>>,
    labels: &[LabeledSpan],
    order: &[OrderedLabel],
    further: &'a [Snippets<S>],
) -> Result<PrimaryRead<'a>, AllocError>
    requires inside { All (λ turn. turn.index < length labels.now) order.now }
    ensures { IfOk result (λ found. IsPrimaryRead (primary_of (opt_ref_source S.source source.entry)
        (ordered_labels labels.now order.now) (map (section_of S.source) further.now)) found) }
{
    let marked_own = marked_span(labels, order);
    let marked = read_chosen(alloc, LabelChoice::Marked, source, marked_own, further)?;
    if marked.is_label() {
        return Ok(marked);
    }
    let first_own = first_span(labels, order);
    read_chosen(alloc, LabelChoice::First, source, first_own, further)
}

/// Reads the primary label. The labels may come in any order.
pub(crate) fn read_primary_of<'a, S: SourceCode>(
    alloc: Global,
    source: Option<SourceRef<'a, S>>,
    labels: &[LabeledSpan],
    further: &'a [Snippets<S>],
) -> Result<PrimaryRead<'a>, AllocError>
    ensures { IfOk result (λ found. IsPrimaryRead (primary_of (opt_ref_source S.source source.entry)
        (in_order labels.now) (map (section_of S.source) further.now)) found) }
{
    let order = order_by_offset(alloc, labels)?;
    read_primary(alloc, source, labels, &order, further)
}
