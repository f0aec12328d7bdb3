//! Ends of spans, and joined spans.

ghost use Rattle.std.specs.Prelude.{◌≡◌, IfOk};
ghost use Rattle.miette_labels.specs.rules.Contexts.{end_of_span};
ghost use Rattle.miette_labels.specs.rules.Groups.{joined_span};

use miette_lines::sums::sum;
use miette_protocol::protocol::{SourceOffset, SourceSpan};
use std::alloc::AllocError;

/// Returns where a span ends, in bytes. Returns `AllocError` if that exceeds `usize::MAX`.
pub fn end_of(span: &SourceSpan) -> Result<usize, AllocError>
    ensures { IfOk result (λ end. end ≡ end_of_span span.now) }
{
    sum(span.offset(), span.len())
}

/// Returns the span from the first offset to the greater end. Returns `AllocError` if an end exceeds `usize::MAX`.
pub fn join(before: &SourceSpan, label: &SourceSpan) -> Result<SourceSpan, AllocError>
    ensures { IfOk result (λ span. span ≡ joined_span before.now label.now) }
{
    let end = end_of(before)?.max(end_of(label)?);
    let start = before.offset();
    Ok(SourceSpan::new(SourceOffset::from(start), end.saturating_sub(start)))
}
