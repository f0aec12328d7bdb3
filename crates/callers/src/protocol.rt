//! A label at a line and column, and the lines around it.

ghost use Rattle.std.specs.Prelude.{◌≡◌, ◌-◌, IfOk, IfSome};
ghost use Rattle.miette_protocol.specs.rules.Location.{IsLocation};
ghost use Rattle.miette_lines.specs.rules.Lines.{line_of};

use miette_protocol::protocol::{LabeledSpan, SourceSpan};
use miette_protocol::source::SourceCode;
use std::alloc::{AllocError, Global};

/// Returns an empty label at a one-based line and column.
pub fn label_at(
    alloc: Global,
    text: &str,
    line: usize,
    column: usize,
) -> Result<LabeledSpan, AllocError>
    ensures { IfOk result (λ label. IsLocation text.now line column label.span.offset) }
{
    let span = SourceSpan::at_line_column(text, line, column, 0);
    LabeledSpan::at(alloc, span, "here")
}

/// Returns the zero-based number of the first line that is shown around a span, if the span is in
/// bounds.
pub fn first_line_shown(source: &[u8], span: &SourceSpan) -> Option<usize>
    ensures { IfSome result (λ line. line ≡ line_of source.now span.now.offset - 1) }
{
    match source.read_span(span, 1, 1) {
        Ok(contents) => Some(contents.line()),
        Err(_) => None,
    }
}
