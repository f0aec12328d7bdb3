//! Reads labels with their context.

ghost use Rattle.std.specs.Prelude.{◌≡◌, ◌<◌, map, length, IfOk, unwrap_or, if◌then◌else◌, max};
ghost use Rattle.std.specs.List.{All};
ghost use Rattle.miette_labels.specs.rules.Around.{has_own_context};
ghost use Rattle.miette_labels.specs.views.ProgramLabels.{label_at};
ghost use Rattle.miette_labels.specs.views.Reads.{AreRead};
ghost use Rattle.miette_labels.specs.steps.Reads.{Reason};

use crate::order::OrderedLabel;
use miette_protocol::error::MietteError;
use miette_protocol::protocol::{LabeledSpan, SourceSpan};
use miette_protocol::source::{MietteSpanContents, START, SourceCode};
use std::alloc::{AllocError, Global};

/// A label that was read.
#[derive(Debug, Drop)]
pub struct ReadLabel<'a> {
    /// The zero-based index of the label in the given list.
    pub index: usize,
    /// The span of the label, in bytes of the source.
    pub span: SourceSpan,
    /// Whether the label is primary.
    pub primary: bool,
    /// The contents of its read, with context lines.
    pub contents: MietteSpanContents<'a>,
}

/// Why a label could not be read.
#[derive(Clone, Copy, Debug, PartialEq, Eq)]
pub enum RefusalReason {
    /// The read failed.
    IoError,
    /// The span is out of bounds.
    OutOfBounds,
}

/// The result of reading all labels.
#[derive(Debug, Drop)]
pub enum ReadLabels<'a> {
    /// All labels, in the order in which they were read.
    All(Vec<ReadLabel<'a>>),
    /// The first label that could not be read, by its index in the given list.
    Refused(usize, RefusalReason),
}

fn reason_of(error: &MietteError) -> RefusalReason
    ensures { Reason error.now result }
{
    match error {
        MietteError::IoError(_) => RefusalReason::IoError,
        MietteError::OutOfBounds => RefusalReason::OutOfBounds,
    }
}

/// Whether a label has its own number of context lines.
pub fn any_own_context(labels: &[LabeledSpan]) -> bool
    ensures { result ≡ has_own_context labels.now }
{
    for label in labels {
        if label.context_lines().is_some() {
            return true;
        }
    }
    false
}

/// Returns the number of context lines of labels that don't have their own: `context`, but at least 1 if another label
/// has its own.
pub fn default_context(context: usize, own: bool) -> usize
    ensures { result ≡ (if own then max 1 context else context) }
{
    if own { context.max(1) } else { context }
}

/// Returns the number of context lines of a label: its own, or else that of labels without one.
pub fn label_context(context: usize, own: bool, label: &LabeledSpan) -> usize
    ensures { result ≡ unwrap_or label.now.context (if own then max 1 context else context) }
{
    match label.context_lines() {
        Some(lines) => lines,
        None => default_context(context, own),
    }
}

/// Reads labels in the given order, until one can't be read. Each is read with its own number of context lines, or else
/// with `context`, but at least 1 if another label has its own. Each read starts near the previous one. Returns
/// `AllocError` if allocation fails.
pub fn read_labels<'a, S: SourceCode>(
    alloc: Global,
    source: &'a S,
    context: usize,
    labels: &[LabeledSpan],
    order: &[OrderedLabel],
) -> Result<ReadLabels<'a>, AllocError>
    requires { All (λ turn. turn.index < length labels.now) order.now }
    ensures { IfOk result (λ read. AreRead context (S.source source.now) labels.now
        (map (λ turn. label_at labels.now turn.index) order.now) read) }
{
    let own = any_own_context(labels);
    let mut reads = Vec::with_capacity(alloc, order.len())?;
    let mut known = START;
    for turn in order {
        let label = &labels[turn.index];
        let lines = label_context(context, own, label);
        match source.read_span_near(known, label.inner(), lines, lines) {
            Ok(contents) => {
                known = contents.known();
                reads.push(ReadLabel {
                    index: turn.index,
                    span: *label.inner(),
                    primary: label.primary(),
                    contents,
                })?
            }
            Err(error) => return Ok(ReadLabels::Refused(turn.index, reason_of(&error))),
        }
    }
    Ok(ReadLabels::All(reads))
}
